//! Tests of the ready-made laws. Another program computed the expected hashes from the definitions.
use super::assert_same;
use std::alloc::Global;
use std::sync::Arc;
use std::test::Fail;
use table_sets::laws::inserted_is_found_again;
use table_sets::pairs::mix_hashes;
use table_sets::texts::{hash_bytes, hash_text};
use table_sets::{
    HeldSet, InPlace, Inserted, KeyLaw, NumberLaw, OfTarget, PairsOf, SetLaw, TextLaw,
};

/// Numbers, and the hash of each.
const NUMBERS: [(u64, u64); 5] = [
    (0, 0x382C_6B14_BA5F_441A),
    (1, 0x7980_1DCC_73DB_173E),
    (1 << 16, 0x43E4_1090_0981_85B6),
    (1 << 40, 0xBDDF_4DD4_6E71_3DC3),
    (u64::MAX, 0xB98D_8BA4_B99E_6652),
];

#[test]
fn hashes_of_texts(rt: HostRuntime) {
    assert_same(&rt, hash_text(""), 0x382C_6B14_BA5F_441A);
    assert_same(&rt, hash_text("a"), 0x3597_A02A_7BF9_A232);
    assert_same(&rt, hash_text("ab"), 0xB1A1_C301_919D_DD8F);
    assert_same(&rt, hash_bytes(&[0xFF]), 0x3923_C4A6_5B84_DF97);
    assert_same(&rt, hash_bytes(&[0x80, 0]), 0x5871_DD62_DCE1_B26D);
}

#[test]
fn hashes_of_pairs(rt: HostRuntime) {
    assert_same(&rt, mix_hashes(0, 0), 0xE13D_F402_E537_C3AB);
    assert_same(&rt, mix_hashes(0, 1), 0x2289_2A4A_AFB2_12B1);
    assert_same(&rt, mix_hashes(3, 5), 0x07D4_7109_7D03_0218);
}

#[test]
fn numbers(rt: HostRuntime) {
    for (number, hash) in &NUMBERS {
        assert_same(&rt, NumberLaw::hash(number), *hash);
    }
    assert_same(&rt, NumberLaw::hash(&1u32), 0x7980_1DCC_73DB_173E);
    assert!(rt; NumberLaw::is_same(&3u64, &3u64) && !NumberLaw::is_same(&3u64, &4u64));
}

#[test]
fn pairs(rt: HostRuntime) {
    type Law = PairsOf<NumberLaw, NumberLaw>;
    assert!(rt; Law::is_same(&(3u64, 4u32), &(3u64, 4u32)));
    assert!(rt; !Law::is_same(&(3u64, 4u32), &(4u64, 4u32)));
    assert!(rt; !Law::is_same(&(3u64, 4u32), &(3u64, 3u32)));
    assert!(rt; Law::hash(&(3u64, 4u32)) != Law::hash(&(4u64, 3u32)));
}

/// Checks which texts match a key, which texts are equal, and that a text and its key have the hash of the bytes.
#[test]
fn keys(rt: HostRuntime) -> Result<(), Fail> {
    let text: String<Global> = String::from_str(rt.alloc(), "ab")?;
    let other: String<Global> = String::from_str(rt.alloc(), "ba")?;
    assert!(rt; TextLaw::is_met(&"ab", &text) && !TextLaw::is_met(&"ab", &other));
    assert!(rt; TextLaw::is_same(&text, &text) && !TextLaw::is_same(&text, &other));
    assert_same(&rt, TextLaw::hash(&text), 0xB1A1_C301_919D_DD8F);
    let key_hash = <TextLaw as KeyLaw<&str, String<Global>>>::hash_key(&"ab");
    assert_same(&rt, key_hash, 0xB1A1_C301_919D_DD8F);
    Ok(())
}

/// Checks that pointers are equal if the numbers that they point to are, and have the hash of the number.
#[test]
fn pointers(rt: HostRuntime) -> Result<(), Fail> {
    type Law = OfTarget<NumberLaw>;
    let (one, again) = (Arc::new(rt.alloc(), 1u64)?, Arc::new(rt.alloc(), 1u64)?);
    let two = Arc::new(rt.alloc(), 2u64)?;
    assert!(rt; Law::is_same(&one, &again) && !Law::is_same(&one, &two));
    assert_same(&rt, Law::hash(&one), 0x7980_1DCC_73DB_173E);
    let boxed = Box::new(rt.alloc(), &1u64)?;
    assert_same(&rt, OfTarget::<Law>::hash(&boxed), 0x7980_1DCC_73DB_173E);
    Ok(())
}

/// Checks that a look-up by a `&str` finds a text that lies behind two pointers.
#[test]
fn pointers_by_keys(rt: HostRuntime) -> Result<(), Fail> {
    let mut set: HeldSet<Box<Arc<String<Global>>>, OfTarget<TextLaw>> = HeldSet::new(rt.alloc());
    let text = Arc::new(rt.alloc(), String::from_str(rt.alloc(), "ab")?)?;
    let again = Arc::try_clone(&text)?;
    assert!(rt; matches!(set.insert(Box::new(rt.alloc(), text)?), Inserted::Placed));
    assert!(rt; matches!(set.insert(Box::new(rt.alloc(), again)?), Inserted::Found(_)));
    assert!(rt; matches!(set.get_by_key(&"ab"), Some(shown) if shown.as_str() == "ab"));
    assert!(rt; set.get_by_key(&"bb").is_none());
    Ok(())
}

/// Calls the function that states a law of sets. It does nothing when it runs: only its contract says something.
#[test]
fn laws_of_sets() {
    inserted_is_found_again::<InPlace<u64>, NumberLaw>();
}
