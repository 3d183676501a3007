//! A system dictionary and user dictionaries that fit it, with their images.

ghost use Rattle.std.specs.Prelude.{◌≡◌, ◌≤◌, ◌∷◌, ◌++◌, [], None, take, vec_len, IfOk, IfErr, OnOk, OnErr};
ghost use Rattle.line_segmenter.specs.Segmenters.{FitOver, overlay_in, with_user};
ghost use Rattle.line_segmenter.specs.Faults.{IsUserMisfit, IsImage, IsLoadUserError, IsLoadError, IsFirstOverlayFault, PassesTestsBeforeKeys};
ghost use Rattle.line_segmenter.specs.declared.fault.SegmentFault.TheVariants.{Memory};
ghost use Rattle.line_segmenter.specs.Trusted.{IsTrusted};
ghost use Rattle.image_format.specs.declared.digest_test.DigestTest.TheVariants.{Verified};
ghost use Rattle.mj_model.specs.declared.limits.TheConstants.{GROUPING_MAX};
ghost use Rattle.word_lookup.specs.Overlays.{fault_of_images, overlay_of};

use crate::fault::SegmentFault;
use dict_image::{Dict, DigestTest, load_image_bytes, load_trusted};
use image_format::borrowed::ImageBytes;
use std::alloc::Global;
use std::marker::Model;
use word_lookup::Dictionaries;

/// A system dictionary and its user dictionaries.
#[derive(Drop)]
pub struct OwnedDictionaries {
    system: Dict,
    users: Vec<Dict>,
}

impl Model for OwnedDictionaries {
    ghost use Rattle.line_segmenter.specs.Segmenters.{FitOver, Images};

    ghost Value = { Images };

    ghost view = { λ d. record { system = d.system; users = d.users.items } };

    ghost invariant = { λ d. FitOver d.system d.users.items };
}

impl OwnedDictionaries {
    /// Loads the image of a system dictionary, without user dictionaries. `digest` selects whether
    /// the checksum is verified.
    pub fn load(
        alloc: Global,
        image: ImageBytes,
        digest: DigestTest,
    ) -> Result<OwnedDictionaries, SegmentFault>
        ensures loaded { IfOk result (λ d. d ≡ record { system = image; users = [] }) }
        ensures accepted { OnOk result (IsImage digest image) }
        ensures fits { OnOk result (fault_of_images image [] ≡ None) }
        ensures rejected { IfErr result (IsLoadError digest image) }
        // Nothing is allocated unless the image passes the checks before those of the keys.
        ensures out_of_memory { IfErr result
            (λ fault. fault ≡ Memory → PassesTestsBeforeKeys digest image) }
    {
        OwnedDictionaries::alone(alloc, load_image_bytes(alloc, image, digest)?)
    }

    /// Loads the image of a system dictionary, without user dictionaries. It must be intact and of
    /// the newest layout, and only its kind is checked.
    pub fn load_trusted(alloc: Global, image: ImageBytes) -> Result<OwnedDictionaries, SegmentFault>
        requires { IsTrusted image }
        ensures loaded { IfOk result (λ d. d ≡ record { system = image; users = [] }) }
        ensures accepted { OnOk result (IsImage Verified image) }
        ensures fits { OnOk result (fault_of_images image [] ≡ None) }
        ensures rejected { IfErr result (IsLoadError Verified image) }
    {
        OwnedDictionaries::alone(alloc, load_trusted(alloc, image)?)
    }

    /// Returns a system dictionary without user dictionaries, or an error if `system` is a user
    /// dictionary.
    fn alone(alloc: Global, system: Dict) -> Result<OwnedDictionaries, SegmentFault>
        ensures alone { IfOk result (λ d. d ≡ record { system = system; users = [] }) }
        ensures fits { OnOk result (fault_of_images system [] ≡ None) }
        ensures rejected { IfErr result (IsFirstOverlayFault system []) }
    {
        let users = Vec::new(alloc);
        Dictionaries::new(&system, &users)?;
        Ok(OwnedDictionaries { system, users })
    }

    /// Returns the combined dictionaries with the grouping `grouping`. Does not allocate.
    pub fn with_grouping(&self, grouping: u16) -> Dictionaries<'_>
        requires { grouping ≤ GROUPING_MAX }
        ensures { overlay_of result ≡ overlay_in self.now grouping }
    {
        Dictionaries::over(&self.system, &self.users).with_grouping(grouping)
    }

    /// Loads the image of a user dictionary and adds it after the others. `digest` selects whether
    /// the checksum is verified.
    pub fn add(
        &mut self,
        alloc: Global,
        image: ImageBytes,
        digest: DigestTest,
    ) -> Result<(), SegmentFault>
        ensures added { OnOk result (self.new ≡ with_user self.old image) }
        ensures accepted { OnOk result (IsImage digest image) }
        ensures fits { OnOk result
            (fault_of_images self.old.system (self.old.users ++ image ∷ []) ≡ None) }
        ensures rejected { IfErr result (IsLoadUserError digest self.old image) }
        ensures out_of_memory { IfErr result
            (λ fault. fault ≡ Memory → PassesTestsBeforeKeys digest image) }
        ensures unchanged { OnErr result (self.new ≡ self.old) }
    {
        let user = load_image_bytes(alloc, image, digest)?;
        add_checked(&self.system, &mut self.users, user)
    }

    /// Adds the image of a user dictionary after the others. It must be intact and of the newest
    /// layout, and only its fit with the others is checked.
    pub fn add_trusted(&mut self, alloc: Global, image: ImageBytes) -> Result<(), SegmentFault>
        requires { IsTrusted image }
        ensures added { OnOk result (self.new ≡ with_user self.old image) }
        ensures accepted { OnOk result (IsImage Verified image) }
        ensures fits { OnOk result
            (fault_of_images self.old.system (self.old.users ++ image ∷ []) ≡ None) }
        ensures rejected { IfErr result (IsLoadUserError Verified self.old image) }
        ensures unchanged { OnErr result (self.new ≡ self.old) }
    {
        let user = load_trusted(alloc, image)?;
        add_checked(&self.system, &mut self.users, user)
    }
}

/// Appends `user` to `users` if the dictionaries fit one another. On an error `users` is unchanged.
fn add_checked(system: &Dict, users: &mut Vec<Dict>, user: Dict) -> Result<(), SegmentFault>
    ensures added { OnOk result (users.new.items ≡ users.old.items ++ user ∷ []) }
    ensures unchanged { OnErr result (users.new.items ≡ users.old.items) }
    ensures accepted { OnOk result (FitOver system.now (users.old.items ++ user ∷ [])) }
    ensures rejected { IfErr result (IsUserMisfit system.now (users.old.items ++ user ∷ [])) }
{
    let count = users.len();
    let added = add_and_check(system, users, user);
    if added.is_err() {
        users.truncate(count);
    }
    added
}

/// Appends `user` to `users`, and checks whether the dictionaries fit one another.
fn add_and_check(system: &Dict, users: &mut Vec<Dict>, user: Dict) -> Result<(), SegmentFault>
    ensures added { OnOk result (users.new.items ≡ users.old.items ++ user ∷ []) }
    ensures others_unchanged { take (vec_len users.old) users.new.items ≡ users.old.items }
    ensures accepted { OnOk result (FitOver system.now (users.old.items ++ user ∷ [])) }
    ensures rejected { IfErr result (IsUserMisfit system.now (users.old.items ++ user ∷ [])) }
{
    users.push(user)?;
    Dictionaries::new(system, users)?;
    Ok(())
}
