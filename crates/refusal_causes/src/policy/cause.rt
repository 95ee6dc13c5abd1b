//! Why a line of a policy's texts is bad.

use init_base::Text;

/// Why a line of the contexts text is bad. Lines count from 1.
#[derive(Drop)]
pub enum ContextCause {
    /// Nothing stands behind the name.
    NoLabel { name: Text },
    /// The word behind the label is neither `exact` nor `prefix`.
    UnknownKind { word: Text },
    /// The word behind the kind is no type.
    UnknownType { word: Text },
    /// Nothing stands behind the type `enum`.
    NoValues,
    /// Words stand behind a type other than `enum`.
    TakesNoValues { word: Text, given: usize },
    /// The line `first` has the same name and kind.
    Twice { name: Text, first: usize },
    /// No line is for the name `*`.
    NoDefault,
}

/// Why a line of the allow text is bad.
#[derive(Drop)]
pub enum AllowCause {
    /// The first word isn't `allow`.
    NotAllow { word: Text },
    /// So many words stand behind `allow`, and not two.
    WrongCount { given: usize },
}
