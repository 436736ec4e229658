//! What holds of the bytes that a writer makes. A call of it does nothing.

ghost use Rattle.write_laws.specs.ReadBack.{WrittenIsRead};
ghost use Rattle.write_laws.specs.ObjectReadBack.{WrittenObjectIsRead};

/// The bytes of a relocatable file that can be written are a relocatable file, and reading them gives that file.
pub fn written_is_read()
    ensures { WrittenIsRead }
{}

/// The bytes of an object that can be written are an object, and reading them gives that object with the segment of its
/// tables behind its own segments.
pub fn written_object_is_read()
    ensures { WrittenObjectIsRead }
{}
