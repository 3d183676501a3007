//! Tests of sections 1 to 4, which are empty in a user dictionary.
ghost use Rattle.std.specs.Prelude.{◌↔◌, IsTrue};
ghost use Rattle.image_format.specs.ImageBytes.{kind_of};
ghost use Rattle.image_format.specs.ImageFaults.{AreInfos, IsHeader, IsUnknownIndex, SystemAlone, system_tests};
ghost use Rattle.image_format.specs.ImageSections.{AreCosts, AreCategories};
ghost use Rattle.dict_image.specs.Validation.Checks.{PassOrFault};
ghost use Rattle.image_format.specs.Layouts.{info_form};

use crate::validation::categories::are_categories;
use crate::validation::index::is_index;
use crate::validation::infos::are_infos;
use image_format::Header;
use mj_model::ImageFault;

/// Tests the connection costs, the categories, the categories of code points, and the index of
/// unknown tokens.
pub(crate) fn check_system(
    header: &Header,
    costs: &[u8],
    categories: &[u8],
    infos: &[u8],
    index: &[u8],
) -> Result<(), ImageFault>
    requires { IsHeader header.now }
    ensures { PassOrFault (system_tests header.now costs.now categories.now infos.now index.now)
        result }
{
    if !has_costs(header, costs) {
        return Err(ImageFault::BadSection(1));
    }
    if !has_categories(header, categories) {
        return Err(ImageFault::BadSection(2));
    }
    if !has_infos(header, infos) {
        return Err(ImageFault::BadSection(3));
    }
    if !has_index(header, index) {
        return Err(ImageFault::BadSection(4));
    }
    Ok(())
}

/// Returns whether section 1 has a cost of 2 bytes for each pair of ids.
fn has_costs(header: &Header, costs: &[u8]) -> bool
    requires { IsHeader header.now }
    ensures { IsTrue result
        ↔ SystemAlone (kind_of header.now) (AreCosts header.now.sizes) costs.now }
{
    if header.is_user() {
        costs.is_empty()
    } else {
        costs.len() == 2 * (header.sizes.right as usize * header.sizes.left as usize)
    }
}

/// Returns whether section 2 has the categories.
fn has_categories(header: &Header, categories: &[u8]) -> bool
    ensures { IsTrue result
        ↔ SystemAlone (kind_of header.now) (AreCategories header.now.categories) categories.now }
{
    if header.is_user() {
        categories.is_empty()
    } else {
        are_categories(header.categories, categories)
    }
}

/// Returns whether section 3 has the categories of code points.
fn has_infos(header: &Header, infos: &[u8]) -> bool
    requires { IsHeader header.now }
    ensures { IsTrue result ↔ SystemAlone (kind_of header.now)
        (AreInfos (info_form header.now.layout) header.now.categories) infos.now }
{
    if header.is_user() {
        infos.is_empty()
    } else {
        are_infos(header.info_form(), header.categories, infos)
    }
}

/// Returns whether section 4 divides the unknown tokens among the categories.
fn has_index(header: &Header, index: &[u8]) -> bool
    ensures { IsTrue result
        ↔ SystemAlone (kind_of header.now) (IsUnknownIndex header.now) index.now }
{
    if header.is_user() {
        index.is_empty()
    } else {
        let end = header.tokens as usize + header.unknown as usize;
        is_index(header.categories, header.tokens, end, index)
    }
}
