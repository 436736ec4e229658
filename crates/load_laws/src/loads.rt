//! What holds after a load. A call of one does nothing.

ghost use Rattle.load_laws.specs.parts.Grounds.{TablesStay};
ghost use Rattle.load_laws.specs.parts.LoadLaws.{RangesStay, ModulesStay};

/// What is held after a load are the placed segments of the live modules, which meet nowhere.
pub fn ranges_stay()
    ensures { RangesStay }
{}

/// The modules after a load: the new ones stand where they are placed, and the others stand as they did.
pub fn modules_stay()
    ensures { ModulesStay }
{}

/// The stubs, the load maps and the slots of descriptors hold what they are to hold.
pub fn tables_stay()
    ensures { TablesStay }
{}
