//! Laws of verified images. These functions do nothing at run time; each states a theorem in its contract.

ghost use Rattle.wy_image.specs.declared.file.ImageFile.{ImageFile};
ghost use Rattle.wy_verified.specs.FileLaws.{FileFailsOnce, VerifiedFileDoesNotFail};
ghost use Rattle.wy_verified.specs.FileLaws.{VerifiedFileIsBounded, VerifiedFileIsNeverStuck};
ghost use Rattle.wy_verified.specs.Images.{Image};
ghost use Rattle.wy_verified.specs.Laws.{BoundedIfVerified, FailingBodyDoesNotPass, NeverStuckIfVerified};
ghost use Rattle.wy_verified.specs.Laws.{PassingImageIsVerified, TypedImagePasses};

/// States that the code of an image whose bodies follow the rules is never stuck.
pub fn verified_is_never_stuck()
    ensures { (image : Image) → NeverStuckIfVerified image }
{}

/// States that runs of an image whose bodies follow the rules are bounded by the effects that it states for its bodies.
pub fn verified_is_bounded()
    ensures { (image : Image) → BoundedIfVerified image }
{}

/// States that an image passes the verifier's walk if its bodies have states, as lowering gives them.
pub fn typed_image_passes()
    ensures { (image : Image) → TypedImagePasses image }
{}

/// States that the bodies of an image follow the rules if it passes the walk.
pub fn passing_image_is_verified()
    ensures { (image : Image) → PassingImageIsVerified image }
{}

/// States that a body in which the walk finds a first failure does not pass.
pub fn failing_body_does_not_pass()
    ensures { (image : Image) → FailingBodyDoesNotPass image }
{}

/// States that the code of a verified file is never stuck.
pub fn verified_file_is_never_stuck()
    ensures { (file : ImageFile) → VerifiedFileIsNeverStuck file }
{}

/// States that runs of a verified file are bounded by the effects that it states for its bodies.
pub fn verified_file_is_bounded()
    ensures { (file : ImageFile) → VerifiedFileIsBounded file }
{}

/// States that a verified file has no failure.
pub fn verified_file_does_not_fail()
    ensures { (file : ImageFile) → VerifiedFileDoesNotFail file }
{}

/// States that a file has at most one first failure.
pub fn file_fails_once()
    ensures { (file : ImageFile) → FileFailsOnce file }
{}
