// The key of a master, of two of them.
ghost use Rattle.std.specs.Prelude.{◌≡◌, ◌+◌, ◌≤◌, eqb};
ghost use Rattle.base.specs.Field.{le_at};
ghost use Rattle.mdf.specs.Block.{data_at};
ghost use Rattle.result.specs.Sharing.{same, key_of};
ghost use Rattle.sharing.specs.Key.{form_key, rest_key};

use crate::text::unit_same;
use blocks::block::{data_field, link_at};
use channels::keeps_inval;

// The numbers of the N bytes at i of the data of the blocks at m and at k are equal.
fn field_same<const N: usize>(image: &[u8], m: u64, k: u64, i: u64) -> bool
    requires { N ≤ 8 }
    ensures { result ≡ eqb (le_at N image.now (data_at image.now m + i)) (le_at N image.now (data_at image.now k + i)) }
{
    data_field::<N>(image, m, i) == data_field::<N>(image, k, i)
}

// Type, sync type, data type, bit offset and bits; the bytes follow from them.
fn form_same(image: &[u8], m: u64, k: u64) -> bool
    ensures { result ≡ same (form_key image.now m) (form_key image.now k) }
{
    if !field_same::<1>(image, m, k, 0) {
        return false;
    }
    if !field_same::<1>(image, m, k, 1) {
        return false;
    }
    if !field_same::<1>(image, m, k, 2) {
        return false;
    }
    if !field_same::<1>(image, m, k, 3) {
        return false;
    }
    field_same::<4>(image, m, k, 8)
}

// Flags, conversion, kept invalidation byte, unit; m is a channel of the group at g, k of the one at h.
fn rest_same(image: &[u8], g: u64, m: u64, h: u64, k: u64) -> bool
    ensures { result ≡ same (rest_key image.now g m) (rest_key image.now h k) }
{
    if !field_same::<4>(image, m, k, 12) {
        return false;
    }
    if link_at(image, m, 4) != link_at(image, k, 4) {
        return false;
    }
    keeps_inval(image, g, m) == keeps_inval(image, h, k) && unit_same(image, m, k)
}

// The master at m of the group at g with ng records, and the master at k of the group at h with nh records.
pub fn key_same(image: &[u8], g: u64, m: u64, ng: u64, h: u64, k: u64, nh: u64) -> bool
    ensures { result ≡ same (key_of image.now ng g m) (key_of image.now nh h k) }
{
    if ng != nh {
        return false;
    }
    form_same(image, m, k) && rest_same(image, g, m, h, k)
}
