use crate::checks::same;
use items::Items;

#[test]
fn keeps_what_is_pushed(rt: HostRuntime) {
    let mut items: Items<u32> = Items::new(rt.alloc());
    assert!(rt; items.is_empty());
    items.push(7).expect(&rt, "memory");
    items.push(9).expect(&rt, "memory");
    same(&rt, items.as_slice(), &[7, 9]);
}

#[test]
fn is_made_from_a_list_and_gives_it_back(rt: HostRuntime) {
    let items = Items::from_slice(rt.alloc(), &[7u32, 9]).expect(&rt, "memory");
    same(&rt, items.get(1).copied(), Some(9));
    same(&rt, Items::of(items.into_vec()).len(), 2);
}
