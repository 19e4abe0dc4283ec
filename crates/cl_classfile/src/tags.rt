//! The tags by which the entries of a pool are told (JVMS SE 8, table 4.4-A).

/// A text (JVMS SE 8, 4.4.7).
pub const UTF8: u8 = 1;

/// An int (JVMS SE 8, 4.4.4).
pub const INTEGER: u8 = 3;

/// A float (JVMS SE 8, 4.4.4).
pub const FLOAT: u8 = 4;

/// A long (JVMS SE 8, 4.4.5).
pub const LONG: u8 = 5;

/// A double (JVMS SE 8, 4.4.5).
pub const DOUBLE: u8 = 6;

/// A class or interface, or an array (JVMS SE 8, 4.4.1).
pub const CLASS: u8 = 7;

/// A string (JVMS SE 8, 4.4.3).
pub const STRING: u8 = 8;

/// A field of a class (JVMS SE 8, 4.4.2).
pub const FIELDREF: u8 = 9;

/// A method of a class (JVMS SE 8, 4.4.2).
pub const METHODREF: u8 = 10;

/// A method of an interface (JVMS SE 8, 4.4.2).
pub const INTERFACE_METHODREF: u8 = 11;

/// A member's name and its descriptor (JVMS SE 8, 4.4.6).
pub const NAME_AND_TYPE: u8 = 12;

/// A method handle (JVMS SE 8, 4.4.8).
pub const METHOD_HANDLE: u8 = 15;

/// A method's type (JVMS SE 8, 4.4.9).
pub const METHOD_TYPE: u8 = 16;

/// A call site (JVMS SE 8, 4.4.10).
pub const INVOKE_DYNAMIC: u8 = 18;
