/// A shared place that threads read and write: a static, a field of an object or an item of an array. `slot` is the
/// number of the static in the program, `obj` and `arr` are numbers among objects and arrays, `place` and `index` count
/// from 0 in the object or the array.
#[derive(Clone, Copy, Debug, PartialEq, Eq, Hash)]
pub enum Place {
    Static(u32),
    Field { obj: u32, place: u32 },
    Item { arr: u32, index: u32 },
}
