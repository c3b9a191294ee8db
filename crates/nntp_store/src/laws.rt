//! Laws of the text of a spool.
ghost use Rattle.std.specs.Prelude.{◌≡◌, ℕ, ◌<◌, ◌^◌, List, Ok, length};
ghost use Rattle.nntp_store.specs.Limited.{LimitedSpool, IsWithinLimit};
ghost use Rattle.nntp_store.specs.Text.{spool_text};
ghost use Rattle.nntp_store.specs.Inner.Text.{IsWritten};
ghost use Rattle.nntp_store.specs.Reading.{spool_at};

/// Octets that are read as a spool are the text of this spool.
pub fn what_is_read_is_a_text()
    ensures { (octets : List ℕ) (L : LimitedSpool) → spool_at octets ≡ Ok L → IsWithinLimit L × (octets ≡ spool_text L) }
{}

/// The text of a spool is read as this spool. The law is for spools of which `IsWritten` holds, and
/// `Spool::counts` says that it does of each spool in memory.
pub fn each_text_is_read()
    ensures { (L : LimitedSpool) → IsWritten L → spool_at (spool_text L) ≡ Ok L }
{}

/// The text of a spool is read as this spool, if the text fits into memory. So what `Spool::write`
/// writes is read as the same spool.
pub fn text_in_memory_is_read()
    ensures { (L : LimitedSpool) → IsWithinLimit L → length (spool_text L) < 2 ^ 64 → spool_at (spool_text L) ≡ Ok L }
{}

/// Different spools have different texts, and so has one spool with different limits.
pub fn texts_differ()
    ensures { (K L : LimitedSpool) → IsWritten K → IsWritten L → spool_text K ≡ spool_text L → K ≡ L }
{}
