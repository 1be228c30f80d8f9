use super::name::{Name, Path};

// The path of an object in the tree.
pub type ObjectPath<'a> = Name<'a, Path>;
