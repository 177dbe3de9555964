//! What is passed from an object to what reads its fields.

use crate::members::Places;
use json_table::Members;
use shared_core_codec::rows::Field;

/// An object of a schema: its members, and where they have the values of the schema's fields.
#[derive(Drop)]
pub struct Object<'t, 'a, T> {
    pub schemas: &'a T,
    pub members: Members<'t, 'a>,
    pub places: Places,
    /// How deep messages may be nested within it.
    pub left: u32,
}

/// A field each of whose values has a record of its own, and whether a default is left out, as of a plain one.
#[derive(Clone, Copy)]
pub struct SingleField<'f> {
    pub field: &'f Field,
    pub plain: bool,
}
