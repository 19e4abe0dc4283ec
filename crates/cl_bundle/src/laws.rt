//! Laws of a bundle, each the contract of a function that does nothing.
ghost use Rattle.std.specs.Prelude.{◌≡◌, ℕ, List, Result};
ghost use Rattle.cl_model.specs.Content.{Content, Stored};
ghost use Rattle.cl_config.specs.Views.{Configured, Scripted};
ghost use Rattle.cl_bundle.specs.Bundles.{AllTell, FirstFault, IsBundle, IsNoBundle, StoredOf, TellsSame};
ghost use Rattle.cl_bundle.specs.Contents.{ContentOf};
ghost use Rattle.cl_bundle.specs.Faults.{IsReason, SameAnswer, SameFault, fault_text};
ghost use Rattle.cl_bundle.specs.Sections.{Part};
ghost use Rattle.cl_bundle.specs.declared.fault.BundleFault.{BundleFault};

/// Faults that are the same are printed as the same text.
pub fn same_faults_print_alike()
    ensures { (f g : BundleFault) → SameFault f g → fault_text f ≡ fault_text g }
{}

/// A class section writes one content at most, or has one fault, and it is stored so.
pub fn section_has_one_content()
    ensures content { (part : Part) (r s : Result (List ℕ) BundleFault) → ContentOf part r
        → ContentOf part s → SameAnswer r s }
    ensures stored { (names : List (List ℕ)) (before : Content) (part : Part)
        (r s : Result Stored BundleFault) → StoredOf names before part r
        → StoredOf names before part s → SameAnswer r s }
{}

/// Class sections in order tell one content at most, or the first that is wrong has one fault.
pub fn sections_tell_one_content()
    ensures same { (names : List (List ℕ)) (before : Content) (parts : List Part) (a b : Content)
        → AllTell names before parts a → AllTell names before parts b → a ≡ b }
    ensures one { (names : List (List ℕ)) (before : Content) (parts : List Part) (a : Content)
        (fault : BundleFault) → AllTell names before parts a → FirstFault names before parts fault
        → ⊥ }
    ensures fault { (names : List (List ℕ)) (before : Content) (parts : List Part)
        (f g : BundleFault) → FirstFault names before parts f → FirstFault names before parts g
        → SameFault f g }
{}

/// Unless memory runs out, a text is read in one way at most: as one bundle, or with one fault.
pub fn reads_one_way()
    ensures same { (text : List ℕ) (c d : Configured) (a b : Content) (s t : Scripted)
        → IsBundle text c a s → IsBundle text d b t → (c ≡ d) × TellsSame a b × (s ≡ t) }
    ensures one { (text : List ℕ) (c : Configured) (a : Content) (s : Scripted)
        (fault : BundleFault) → IsBundle text c a s → IsNoBundle text fault → IsReason fault → ⊥ }
    ensures fault { (text : List ℕ) (f g : BundleFault) → IsNoBundle text f → IsNoBundle text g
        → IsReason f → IsReason g → SameFault f g }
{}
