// Each method of a list, called at least once.
use rpl_list::List;
use std::test::Fail;

#[test]
fn members_come_in_order(rt: HostRuntime) -> Result<(), Fail> {
    let mut words = List::new(rt.alloc());
    assert!(rt; words.is_empty());
    words.push(7)?;
    let mut more = List::new(rt.alloc());
    more.push(8)?;
    more.push(9)?;
    words.append(more)?;
    assert!(rt; words.len() == 3 && words.get(1) == Some(&8) && words.get(3).is_none());
    assert!(rt; words.as_slice() == [7, 8, 9].as_slice());
    words.extend_from_slice(&[1, 2])?;
    let copy = List::from_slice(rt.alloc(), words.as_slice())?;
    assert!(rt; copy.as_slice() == [7, 8, 9, 1, 2].as_slice());
    let items = words.into_vec();
    assert!(rt; List::from_vec(items).as_slice() == copy.as_slice());
    Ok(())
}
