// The laws of the machine.
ghost use Rattle.std.specs.Prelude.{◌≡◌, ◌≢◌, ℕ, ◌<◌, List, map, None};
ghost use Rattle.log_entry.specs.declared.entry.Entry.{Entry};
ghost use Rattle.chunk_map.specs.Layouts.{layout_of, superblock_rule};
ghost use Rattle.store_image.specs.Soundness as images;
ghost use Rattle.group_laws.specs.Places.{Place, IsPlace, members, owner};
ghost use Rattle.group_laws.specs.Steps.{left_by};
ghost use Rattle.group_laws.specs.State.{Group};
ghost use Rattle.group_laws.specs.Invariant.{Lawful, IsInDoubt};
ghost use Rattle.group_laws.specs.Runs.{Kind, IsStep, Runs};
ghost use Rattle.group_laws.specs.Finishes.{finishes_in, cell_after};
ghost use Rattle.group_laws.specs.Posts.{offer_of, settled};
ghost use Rattle.group_laws.specs.Crashes.{Contents, Distinct};
ghost use Rattle.group_laws.specs.MemberViews.{View, view_of};
ghost use Rattle.group_laws.specs.Images.{IsLicensedBy, IsLicensedImage, IsSafe, SamePart};
ghost use Rattle.group_laws.specs.Regions.{AreSafe, ShowsCell};
ghost use Rattle.group_laws.specs.Opening.{IsSound, IsOpened};

/// A step of any kind on a lawful state leaves a lawful state.
pub fn every_step()
    ensures { (w : Group) (m : ℕ) (kind : Kind) (u : Group) → Lawful w → IsStep w m kind u
        → Lawful u }
{}

/// Whatever steps the members make, in whatever order: the state stays lawful. Whatever a crash then leaves of
/// the parts is sound and recovers each cell as it is or as its pending change leaves it. No block serves two
/// values. Each key's cell is what its finished changes leave, in order, and a finished change leaves what its key's
/// last post offered: the bytes that were posted with the pointer, or those in the entry, or none.
pub fn every_run()
    ensures lawful { (w : Group) (steps : List (ℕ × Kind)) (u : Group)
        → Lawful w → Runs w steps u → Lawful u }
    ensures safe { (w : Group) (steps : List (ℕ × Kind)) (u : Group) (images : ℕ → ℕ → ℕ)
        → Lawful w → Runs w steps u
        → ((h : ℕ) → h < members u.place → IsLicensedImage u h (images h)) → IsSafe u images }
    ensures distinct { (w : Group) (steps : List (ℕ × Kind)) (u : Group)
        → Lawful w → Runs w steps u → Distinct u }
    ensures cells { (w : Group) (steps : List (ℕ × Kind)) (u : Group) (r : Runs w steps u) (k : ℕ)
        → u.cell k ≡ cell_after k (finishes_in w steps u r) (w.cell k) }
    ensures posted { (w : Group) (steps : List (ℕ × Kind)) (u : Group) (r : Runs w steps u)
        → Lawful w → (k : ℕ) → u.cell k ≡ settled k w steps u r (offer_of w k) (w.cell k) }
{}

/// Steps of one member leave the whole view of every other one, and no step moves the group. So what a member knows,
/// it knows until its own next step.
pub fn every_other_view()
    ensures step { (w : Group) (m : ℕ) (kind : Kind) (u : Group) (n : ℕ)
        → n ≢ m → IsStep w m kind u → view_of u n ≡ view_of w n }
    ensures run { (w : Group) (m : ℕ) (kinds : List Kind) (u : Group) (n : ℕ)
        → n ≢ m → Runs w (map (λ kind. (m, kind)) kinds) u → view_of u n ≡ view_of w n }
    ensures place { (w : Group) (steps : List (ℕ × Kind)) (u : Group)
        → Runs w steps u → u.place ≡ w.place }
{}

/// Whether a member's view licenses an image depends on the words of the member's own part alone.
pub fn every_licence()
    ensures { (p : Place) (h : ℕ) (v : View) (i : ℕ → ℕ) (j : ℕ → ℕ)
        → IsPlace p → SamePart p h i j → IsLicensedBy p h v j → IsLicensedBy p h v i }
{}

/// An image that is safe for each group of its layout, with a superblock that keeps its rules, is sound. It recovers
/// each key's cell as the key's group has it, or as the key's pending change leaves it.
pub fn every_region()
    ensures sound { (bytes : ℕ) (image : ℕ → ℕ) (w : ℕ → Group) → superblock_rule bytes image ≡ None
        → AreSafe (layout_of image) w image → images.IsSound bytes image }
    ensures cells { (bytes : ℕ) (image : ℕ → ℕ) (w : ℕ → Group) → superblock_rule bytes image ≡ None
        → AreSafe (layout_of image) w image → (k : ℕ) → ShowsCell (layout_of image) w image k }
{}

/// A change in doubt stays so, whatever steps are made, and would leave what it would have left before.
pub fn every_doubt()
    ensures stays { (k : ℕ) (d : Entry) (w : Group) (steps : List (ℕ × Kind)) (u : Group)
        → Lawful w → Runs w steps u → IsInDoubt w k d → IsInDoubt u k d }
    ensures leaves { (k : ℕ) (d : Entry) (w : Group) (steps : List (ℕ × Kind)) (u : Group)
        → Lawful w → Runs w steps u → IsInDoubt w k d
        → left_by u (owner u.place k) d.body ≡ left_by w (owner w.place k) d.body }
{}

/// A group that opens on what sound parts say is in a lawful state.
pub fn every_opening()
    ensures { (u : Group) (x : Contents) → IsSound u.place x → IsOpened u x → Lawful u }
{}
