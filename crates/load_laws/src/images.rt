//! What the image of a module stands on. A call of it does nothing.

ghost use Rattle.load_laws.specs.parts.ImageFrame.{ImagesStand};

/// Where the scope of a module, the places of it and of what its sites name, the descriptors that they name, its flags and
/// its watched bytes are as before, the module holds its image as before. Loads, closes, a slot that is bound, and a
/// descriptor that is given: each leaves all modules, or all but one, so.
pub fn images_stand()
    ensures { ImagesStand }
{}
