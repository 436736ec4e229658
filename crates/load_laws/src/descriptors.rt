//! What holds of descriptors' addresses after a load. A call of one does nothing.

ghost use Rattle.load_laws.specs.parts.DescriptorLaws.{AddressesStay, AdoptionsAreFree, DescriptorsStay};

/// The new modules' own descriptors can be adopted: nothing else has their addresses.
pub fn adoptions_are_free()
    ensures { AdoptionsAreFree }
{}

/// After a load each function's descriptor has an address of its own, and its module is live. A function with private
/// descriptors has that of the first, and each other that has an address has a slot.
pub fn descriptors_stay()
    ensures { DescriptorsStay }
{}

/// Over a load each function that had a descriptor's address keeps it, and no two functions share one.
pub fn addresses_stay()
    ensures { AddressesStay }
{}
