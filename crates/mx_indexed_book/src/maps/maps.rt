//! Maps of answers: what stands at a key, room for one key more, and a change that then takes no memory.
ghost use Rattle.std.specs.Prelude.{◌≡◌};
ghost use Rattle.std.specs.Bool.{OnTrue};
ghost use Rattle.std.proofs.lemmas.Map.Lookups.{CmpEqualImpliesEq};
ghost use Rattle.mx_indexed_book.specs.maps.Maps.{HasRoom, HasRoomForAll, KeepsRows, changed, changed_all, held};

use std::collections::BTreeMap;

/// What a map has at a key, or `none` where it has no row.
pub fn held<K: Ord, V: Copy>(map: &BTreeMap<K, V>, key: &K, none: V) -> V
    ensures { result ≡ held K.cmp none map.now key.now }
{
    match map.get(key) {
        Some(value) => *value,
        None => none,
    }
}

/// Makes room for the key of a change, where there is one: a row that says `none`. Whether there was memory for it; in
/// either case the map has what it had.
pub fn make_room<K: Ord + Copy, V: Copy>(
    map: &mut BTreeMap<K, V>,
    change: &Option<(K, V)>,
    none: V,
) -> bool
    ensures same { CmpEqualImpliesEq K.cmp → (key : K)
        → held K.cmp none map.new key ≡ held K.cmp none map.old key }
    ensures room { OnTrue result (HasRoom K.cmp change.now map.new) }
    ensures keeps { KeepsRows K.cmp map.old map.new }
{
    match change {
        None => true,
        Some((key, _)) => {
            if map.contains_key(key) {
                return true;
            }
            match map.insert(*key, none) {
                Ok(_) => true,
                Err(_) => false,
            }
        }
    }
}

/// Changes what stands at one key, where there is a change, for which the map has room.
pub fn put<K: Ord + Copy, V: Copy>(map: &mut BTreeMap<K, V>, change: &Option<(K, V)>)
    requires { HasRoom K.cmp change.now map.old }
    ensures changed { (none : V) (key : K) → held K.cmp none map.new key
        ≡ changed K.cmp change.now key (held K.cmp none map.old key) }
    ensures keeps { KeepsRows K.cmp map.old map.new }
{
    match change {
        None => {}
        Some((key, value)) => match map.insert(*key, *value) {
            Ok(_) => {}
            Err(_) => unreachable!(),
        },
    }
}

/// Makes room for the key of each change. Whether there was memory for it; in either case the map has what it had.
pub fn make_room_for_all<K: Ord + Copy, V: Copy>(
    map: &mut BTreeMap<K, V>,
    changes: &Vec<(K, V)>,
    none: V,
) -> bool
    ensures same { CmpEqualImpliesEq K.cmp → (key : K)
        → held K.cmp none map.new key ≡ held K.cmp none map.old key }
    ensures room { OnTrue result (HasRoomForAll K.cmp changes.now.items map.new) }
{
    let mut rest = changes.as_slice();
    while let Some((change, later)) = rest.split_first() {
        if !make_room(map, &Some(*change), none) {
            return false;
        }
        rest = later;
    }
    true
}

/// Makes the changes, one after the other, for which the map has room.
pub fn put_all<K: Ord + Copy, V: Copy>(map: &mut BTreeMap<K, V>, changes: &Vec<(K, V)>)
    requires { HasRoomForAll K.cmp changes.now.items map.old }
    ensures { (none : V) (key : K) → held K.cmp none map.new key
        ≡ changed_all K.cmp changes.now.items key (held K.cmp none map.old key) }
{
    let mut rest = changes.as_slice();
    while let Some((change, later)) = rest.split_first() {
        put(map, &Some(*change));
        rest = later;
    }
}
