//! Numbers of keys in order of first use.
//!
//! The table is an ordered map: no choice of keys makes it slow.

ghost use Rattle.std.specs.Prelude.{◌≡◌, ◌++◌, ◌∷◌, [], List, false, suc, length, IfOk, OnOk};
ghost use Rattle.sb_idf_out.specs.FirstUse.{has};
ghost use Rattle.sb_idf_out.specs.Steps.Tables.{IsNumbered, number_where};

use std::alloc::AllocError;
use std::collections::BTreeMap;

/// The number of a key, where it has one.
pub(crate) fn number_of<K: Ord>(numbers: &BTreeMap<K, u64>, key: &K) -> Option<u64>
    ensures { (ks : List K) → IsNumbered K.eq K.cmp ks numbers.now → result ≡ number_where K.eq ks key.now }
{
    numbers.get(key).copied()
}

/// The number of the next key. More than 2^64 keys are want of memory.
pub(crate) fn next_number<K: Ord>(numbers: &BTreeMap<K, u64>) -> Result<u64, AllocError>
    ensures { IfOk result (λ n. (ks : List K) → IsNumbered K.eq K.cmp ks numbers.now → n ≡ suc (length ks)) }
{
    (numbers.len() as u64).checked_add(1).ok_or(AllocError)
}

/// Gives a key that has no number the next.
pub(crate) fn add<K: Ord + Drop>(
    numbers: &mut BTreeMap<K, u64>,
    key: K,
    number: u64,
) -> Result<(), AllocError>
    ensures { OnOk result ((ks : List K) → IsNumbered K.eq K.cmp ks numbers.old → has K.eq ks key ≡ false
        → number ≡ suc (length ks) → IsNumbered K.eq K.cmp (ks ++ key ∷ []) numbers.new) }
{
    numbers.insert(key, number)?;
    Ok(())
}
