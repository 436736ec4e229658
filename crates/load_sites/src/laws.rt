//! What holds of symbols and sites themselves. A call of one does nothing.

ghost use Rattle.load_sites.specs.parts.Laws.{OwnSymbolsStayHome, LookUpsAgree, SitesNameNearModules, SlotsLeadToCode, PlacedValuesHavePlaces, SitesHaveWords};

/// A symbol that no other module's can replace means itself, whatever modules there are.
pub fn own_symbols_stay_home()
    ensures { OwnSymbolsStayHome }
{}

/// What the symbols and the sites of a module mean, and why they can't be filled, depends on its scope, on its own
/// object, and on the objects of the modules in its scope, and on nothing else.
pub fn look_ups_agree()
    ensures { LookUpsAgree }
{}

/// What the sites of a module name is in the module itself, or in a module of its scope.
pub fn sites_name_near_modules()
    ensures { SitesNameNearModules }
{}

/// The functions of slots and of descriptors are code.
pub fn slots_lead_to_code()
    ensures { SlotsLeadToCode }
{}

/// The link addresses whose placed address is written have one.
pub fn placed_values_have_places()
    ensures { PlacedValuesHavePlaces }
{}

/// Each site of a sound object has its word within the link addresses, as `site_value` asks.
pub fn sites_have_words()
    ensures { SitesHaveWords }
{}
