use arrayvec::ArrayVec;
use fixed_list::*;
use std::test::Fail;

#[test]
fn a_list_is_made_from_a_vector_and_gives_it_back(rt: HostRuntime) -> Result<(), Fail> {
    let mut list: FixedList<u16, 4> = FixedList::from(ArrayVec::new());
    assert!(rt; list.is_empty());
    list.push(3);
    list.extend_from_slice(&[5, 8]);
    assert_eq!(rt; (list.len(), list.capacity()), (3, 4));
    assert_eq!(rt; list.clone()?, list);
    assert_ne!(rt; list, FixedList::from_slice(&[3, 5]));
    assert_eq!(rt; list.into_inner().as_slice(), [3, 5, 8].as_slice());
    Ok(())
}
