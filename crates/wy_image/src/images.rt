//! Images as bytes, after their letters.

ghost use Rattle.std.specs.Prelude.{◌≡◌};
ghost use Rattle.wy_image.specs.ImageLaws.{image_kind, image_of};
ghost use Rattle.wy_image.specs.Spelled.{IsImageSpelled, image_bytes};

use crate::file::{Body, Grant, ImageFile, Instance, Main, Scope};
use crate::typing::Signature;
use std::alloc::Global;
use wy_spelling::{ReadError, Spelled, WriteRefusal};
use wy_text::list::Items;
use wy_text::text::Text;

/// The parts, in the order of their bytes.
type Parts = (
    Items<Text>,
    (
        Items<Grant>,
        (
            Items<Text>,
            (
                Items<Items<Signature>>,
                (Items<Body>, (Items<Scope>, (Items<Instance>, Main))),
            ),
        ),
    ),
);

/// Makes the whole of its parts.
fn image_of(parts: Parts) -> ImageFile
    ensures { result ≡ image_of parts }
{
    let (files, (grants, (methods, (types, (bodies, (scopes, (instances, main))))))) = parts;
    ImageFile {
        files,
        grants,
        methods,
        types,
        bodies,
        scopes,
        instances,
        main,
    }
}

impl Spelled for ImageFile {
    ghost IsSpelled = { IsImageSpelled };

    ghost bytes_of = { image_bytes };

    fn read(alloc: Global, bytes: &[u8]) -> Result<(ImageFile, &[u8]), ReadError> {
        let (parts, rest) = Parts::read(alloc, bytes)?;
        Ok((image_of(parts), rest))
    }

    fn write(&self, out: &mut Vec<u8>) -> Result<(), WriteRefusal> {
        self.files.write(out)?;
        self.grants.write(out)?;
        self.methods.write(out)?;
        self.types.write(out)?;
        self.bodies.write(out)?;
        self.scopes.write(out)?;
        self.instances.write(out)?;
        self.main.write(out)
    }

    ghost some = { image_kind.some };

    ghost apart = { image_kind.apart };

    ghost filled = { image_kind.filled };
}
