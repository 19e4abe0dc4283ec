use cl_names::Name;

/// An entry of the constant pool (JVMS SE 8, 4.4). Each number that is not a value is an index of the pool.
#[derive(Debug, Drop, PartialEq, Eq)]
pub enum Entry {
    /// A text in modified UTF-8 (4.4.7).
    Utf8(Name),
    /// An int (4.4.4).
    Integer(i32),
    /// A float, by its bits (4.4.4).
    Float(u32),
    /// A long, which takes two indices (4.4.5).
    Long(i64),
    /// A double, by its bits, which takes two indices (4.4.5).
    Double(u64),
    /// The second index of a long or a double, which cannot be used (4.4.5).
    Unusable,
    /// A class or interface, or an array, by the text that names it (4.4.1).
    Class(u16),
    /// A string, by its text (4.4.3).
    String(u16),
    /// A field of a class (4.4.2).
    Fieldref { class: u16, name_and_type: u16 },
    /// A method of a class (4.4.2).
    Methodref { class: u16, name_and_type: u16 },
    /// A method of an interface (4.4.2).
    InterfaceMethodref { class: u16, name_and_type: u16 },
    /// A member's name and its descriptor (4.4.6).
    NameAndType { name: u16, descriptor: u16 },
    /// A method handle: its kind, 1 to 9, and the member that it is made of (4.4.8).
    MethodHandle { kind: u8, reference: u16 },
    /// A method's type, by its descriptor (4.4.9).
    MethodType(u16),
    /// A call site: the index of its bootstrap method, which is none of the pool, and its name and type (4.4.10).
    InvokeDynamic { bootstrap: u16, name_and_type: u16 },
}
