// The opening of a group on the words of a region.
ghost use Rattle.std.specs.Prelude.{ℕ, ◌<◌};
ghost use Rattle.chunk_map.specs.Layouts.{layout_of};
ghost use Rattle.store_image.specs.Soundness as images;
ghost use Rattle.group_laws.specs.Regions.{groups_in, place_at};
ghost use Rattle.group_laws.specs.Invariant.{Lawful};
ghost use Rattle.group_laws.specs.Images.{IsLicensedImage};
ghost use Rattle.group_laws.specs.Opening.{AllTidied};
ghost use Rattle.group_laws.specs.OpeningImages.{found, opened};

/// What each group of a sound image opens with, made of the image's words, is a lawful state. It is what the words
/// say, after the two rules on each member's keys. And the image is one that a crash may leave of it.
pub fn every_image()
    ensures lawful { (bytes g : ℕ) (image : ℕ → ℕ) → images.IsSound bytes image
        → g < groups_in (layout_of image) → Lawful (opened (place_at (layout_of image) g) image) }
    ensures rules { (bytes g : ℕ) (image : ℕ → ℕ) → images.IsSound bytes image
        → g < groups_in (layout_of image) → AllTidied (layout_of image).group
        (found (place_at (layout_of image) g) image) (opened (place_at (layout_of image) g) image) }
    ensures licensed { (bytes g h : ℕ) (image : ℕ → ℕ) → images.IsSound bytes image
        → g < groups_in (layout_of image) → h < (layout_of image).group
        → IsLicensedImage (opened (place_at (layout_of image) g) image) h image }
{}
