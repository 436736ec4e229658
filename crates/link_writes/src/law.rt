//! What holds of linked objects for those who write them. A call of it does nothing.

ghost use Rattle.link_writes.specs.Linked.{LinkedIsWritable};

/// Where each test of a link holds, the linked object can be written.
pub fn linked_is_writable()
    ensures { LinkedIsWritable }
{}
