// How many elements at the front of an area are meant: as many as are asked for, or all there are.
ghost use Rattle.asking.specs.Front.{IsFrontLen};

pub fn front<T>(area: &[T], n: usize) -> usize
    ensures { IsFrontLen result area.now }
{
    n.min(area.len())
}
