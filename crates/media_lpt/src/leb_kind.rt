// What a main LEB is used for.

/// What a main LEB is used for: `Free` is empty, `Leaf` holds nodes of files, `Index` index nodes, `Bud` is one that the
/// log names, and `Taken` is set aside (`LPROPS_EMPTY`, `LPROPS_INDEX` and `LPROPS_TAKEN` of the Linux sources).
#[derive(Clone, Copy, Debug, PartialEq, Eq)]
pub enum LebKind {
    Free,
    Leaf,
    Index,
    Bud,
    Taken,
}
