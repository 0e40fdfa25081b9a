//! Laws of the bytes of images. These functions do nothing at run time; each states a theorem in its contract.

ghost use Rattle.wy_spelling.specs.Spelling.{OneBadPlace, OneSpelling};
ghost use Rattle.wy_image.specs.Files.{IsFileSpelled, file_bytes};

/// States that bytes spell at most one image.
pub fn one_spelling()
    ensures { OneSpelling IsFileSpelled file_bytes }
{}

/// States that bytes that spell no image go wrong at one place.
pub fn one_bad_place()
    ensures { OneBadPlace IsFileSpelled file_bytes }
{}
