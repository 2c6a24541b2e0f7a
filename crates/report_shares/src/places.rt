// Where an address lies among shares.
ghost use Rattle.std.specs.Prelude.{◌≡◌, ◌≤◌, ◌==◌, length, All, not, true, false, nat_le};
ghost use Rattle.std.specs.List.Sorted.{IsPartitionPoint};
ghost use Rattle.report_text.specs.Forms.{SharesAscend};
ghost use Rattle.report_shares.specs.Shares.{IsProper, holders, begins};

use report_text::Share;

/// The place of the first share that ends behind an address.
fn place_of(shares: &[Share], at: u32) -> usize
    requires ascending { SharesAscend shares.now }
    requires shares { All IsProper shares.now }
    ensures bound { result ≤ length shares.now }
    ensures point { IsPartitionPoint (λ h. nat_le h.end at ≡ true) (λ h. nat_le h.end at ≡ false) shares.now result }
{
    shares.partition_point(|share| share.end <= at)
}

/// Whether an address lies in a share's range.
pub fn is_held(shares: &[Share], at: u32) -> bool
    requires ascending { SharesAscend shares.now }
    requires shares { All IsProper shares.now }
    ensures { result ≡ not (holders shares.now at == 0) }
{
    let place = place_of(shares, at);
    if place == shares.len() {
        return false;
    }
    shares[place].first <= at
}

/// Whether an address is the first of a share with a name.
pub fn begins(shares: &[Share], at: u32) -> bool
    requires ascending { SharesAscend shares.now }
    requires shares { All IsProper shares.now }
    ensures { result ≡ begins shares.now at }
{
    let place = place_of(shares, at);
    if place == shares.len() {
        return false;
    }
    if shares[place].first != at {
        return false;
    }
    shares[place].name.is_some()
}
