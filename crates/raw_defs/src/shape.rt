//! The kinds of items of a document, and the shapes of the values at their keys.

/// A kind of items. A member is a `CcdMember` or a `ReplicaMember` if its type says so.
#[derive(Clone, Copy, Debug, PartialEq, Eq)]
pub enum ItemKind {
    Document,
    Table,
    Registration,
    Set,
    Member,
    CcdMember,
    ReplicaMember,
}

/// A shape of values.
#[derive(Clone, Copy, Debug, PartialEq, Eq)]
pub enum ValueShape {
    /// No value has it.
    Nothing,
    /// A text.
    Text,
    /// An array of texts.
    Texts,
    /// A boolean.
    Flag,
    /// A number from 0 to 4294967295.
    Count,
    /// A type of members.
    MemberType,
    /// A table that is an item.
    Item(ItemKind),
    /// An array of items.
    Items(ItemKind),
    /// An array of at least one item.
    SomeItems(ItemKind),
}
