//! A `size` or an order of octets that a type can't have.

ghost use Rattle.std.specs.Prelude.{◌≡◌, pos, option_map, option_copied};
ghost use Rattle.acn_world.specs.Viewed.{world_view};
ghost use Rattle.acn_sites.specs.View.{site_view};
ghost use Rattle.acn_written.specs.Numbers as numbers_spec;
ghost use Rattle.acn_written.specs.Sizes as sizes_spec;
ghost use Rattle.acn_written.specs.View.{numbers_view};
ghost use Rattle.acn_written.specs.Widths as spec;

use crate::numbers::Numbers;
use crate::says::is_little;
use acn_acn_syntax::SizeAttr;
use acn_codings::{Coding, fits};
use acn_num::{MOST_SIZE, RangeSet};
use acn_reasons::{class_of, encoding_attr, size_attr};
use acn_sites::Site;
use acn_world::World;

// Whether a number has a width that its coding has.
fn number_size_fits(site: &Site<'_>, numbers: &Numbers) -> bool
    ensures { result ≡ spec.number_size_fits (site_view site.now) (numbers_view numbers.now) }
{
    fits(numbers.coding) && (size_attr(site).is_some() || encoding_attr(site).is_none())
}

// Whether a written SIZE permits a size.
fn permits(written: &Option<RangeSet>, n: u64) -> bool
    ensures { result ≡ spec.permits written.now n }
{
    match written {
        None => true,
        Some(sizes) => sizes.holds_natural(n),
    }
}

// Whether the one size may be the size.
fn one_size_fits(written: &Option<RangeSet>, size: Option<&SizeAttr>) -> bool
    ensures { result ≡ spec.one_size_fits written.now (option_copied size.entry) }
{
    match size {
        Some(SizeAttr::Number(n)) => *n <= u64::from(MOST_SIZE) && permits(written, *n),
        Some(SizeAttr::NullTerminated) => true,
        Some(SizeAttr::Path(_)) => true,
        None => true,
    }
}

// Whether the sizes fit.
fn size_fits(site: &Site<'_>, numbers: &Option<Numbers>, written: &Option<RangeSet>) -> bool
    ensures { result ≡ spec.size_fits (site_view site.now) (option_map numbers_view numbers.now) written.now }
{
    match numbers {
        Some(numbers) => number_size_fits(site, numbers),
        None => !class_of(site).is_sized() || one_size_fits(written, size_attr(site)),
    }
}

/// Whether the `size` of a site is none that it can have: the width of a number is one that its coding has, and a number with
/// an `encoding` has a `size`; another size is at most `MOST_SIZE`, and one that a written SIZE permits. (This profile's own.)
#[tactic(auto, unfolding(crate::specs::Widths::bad_size))]
pub fn bad_size(
    world: &World,
    site: &Site<'_>,
    numbers: &Option<Numbers>,
    written: &Option<RangeSet>,
) -> bool
    requires numbers { option_map numbers_view numbers.now ≡ numbers_spec.numbers_at (world_view world.now) (site_view site.now) }
    requires sizes { written.now ≡ sizes_spec.written_sizes (world_view world.now) (site_view site.now) }
    ensures { result ≡ spec.bad_size (world_view world.now) (site_view site.now) }
{
    let _world = world;
    !size_fits(site, numbers, written)
}

// Whether a code is whole octets that spell the number in base 2.
fn is_whole_octets(coding: Coding) -> bool
    ensures { result ≡ spec.is_whole_octets coding }
{
    match coding {
        Coding::PosInt(bits) => bits % 8 == 0,
        Coding::Twos(bits) => bits % 8 == 0,
        Coding::Default => false,
        Coding::Bcd(_) => false,
        Coding::BcdEnded => false,
        Coding::Ascii(_, _) => false,
        Coding::AsciiEnded(_) => false,
    }
}

// Whether octets can stand in the other order.
fn little_fits(numbers: &Option<Numbers>) -> bool
    ensures { result ≡ spec.little_fits (option_map numbers_view numbers.now) }
{
    match numbers {
        None => true,
        Some(numbers) => is_whole_octets(numbers.coding),
    }
}

/// Whether the octets of a site's number are to stand in the other order and can't, since its code isn't `pos-int` or
/// `twos-complement` of whole octets. (This profile's own.)
#[tactic(auto, unfolding(crate::specs::Widths::bad_endianness))]
pub fn bad_endianness(world: &World, site: &Site<'_>, numbers: &Option<Numbers>) -> bool
    requires { option_map numbers_view numbers.now ≡ numbers_spec.numbers_at (world_view world.now) (site_view site.now) }
    ensures { result ≡ spec.bad_endianness (world_view world.now) (site_view site.now) }
{
    let _world = world;
    is_little(site) && !little_fits(numbers)
}
