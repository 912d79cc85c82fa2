// Each first call on the protocol of the README, in which the Depot crashes; what it has to answer stands in
// examples/delivery.journal and examples/delivery.table.

use crate::drawing::table_svg;
use crate::judging::is_whole;
use crate::reading::role_count;
use crate::running::run;
use crate::tables::concerned;
use rcv_input::{InputError, read_input};
use rcv_tree::point::Point;
use rcv_tree::role::{RoleId, RoleSet};
use std::alloc::Global;
use std::test::Fail;

const DELIVERY: &[u8] = b"module delivery;
global protocol Delivery(role Buyer, role Shop, role Depot) {
  order() from Buyer to Shop;
  ship() from Shop to Depot;
  parcel() from Depot to Buyer;
  thanks() from Buyer to Depot;
}
%% plan
every Depot 10
crash Depot 3
";

const JOURNAL: &[u8] = b"send Buyer 1 order 0 @1
recv Shop 1 order 0 @2 <1
send Shop 2 ship 0 @3
recv Depot 2 ship 0 @4 <3
send Depot 3 parcel 0 @5
recv Buyer 3 parcel 0 @6 <5
send Buyer 4 thanks 0 @7
recv Depot 4 thanks 0 @8 <7
crash Depot
recover Depot undone 5: Buyer 1 Depot 0
recv Depot 2 ship 0 @10 <3
send Depot 3 parcel 0 @11
recv Buyer 3 parcel 0 @12 <11
send Buyer 4 thanks 0 @13
recv Depot 4 thanks 0 @14 <13
role Buyer kept 3 raw 5 done
role Shop kept 2 raw 2 done
role Depot kept 3 raw 6 done
completed
";

// The Depot receives its second message twice.
const WRONG: &[u8] = b"send Buyer 1 order 0 @1
recv Shop 1 order 0 @2 <1
recv Shop 1 order 0 @3 <1
completed
";

// A role sends to itself.
const REFUSED: &[u8] = b"module m; global protocol P(role A, role B) { ask() from A to A; }\n";

// Whether the journal after DELIVERY's text is whole.
fn judged(alloc: Global, journal: &[u8]) -> Result<bool, Fail> {
    let mut input = Vec::from_slice(alloc, DELIVERY)?;
    input.extend_from_slice(b"%% journal\n")?;
    input.extend_from_slice(journal)?;
    if input.len() > 4096 {
        return Err(Fail::new("too long"));
    }
    Ok(is_whole(alloc, input.as_slice())?)
}

#[test]
fn roles_are_counted(rt: HostRuntime) -> Result<(), Fail> {
    assert_eq!(rt; role_count(rt.alloc(), DELIVERY)?, Some(3));
    assert_eq!(rt; role_count(rt.alloc(), REFUSED)?, None);
    Ok(())
}

#[test]
fn a_session_runs_to_its_end(rt: HostRuntime) -> Result<(), Fail> {
    let Ok(text) = run(rt.alloc(), DELIVERY) else {
        return Err(Fail::new("the text is refused"));
    };
    assert!(rt; text.as_slice() == JOURNAL);
    assert!(rt; matches!(run(rt.alloc(), REFUSED), Err(InputError::Refused(_))));
    Ok(())
}

#[test]
fn journals_are_judged(rt: HostRuntime) -> Result<(), Fail> {
    assert!(rt; judged(rt.alloc(), JOURNAL)?);
    assert!(rt; !judged(rt.alloc(), WRONG)?);
    assert!(rt; !is_whole(rt.alloc(), REFUSED)?);
    Ok(())
}

#[test]
fn the_shop_keeps_what_it_did(rt: HostRuntime) -> Result<(), Fail> {
    let Ok(taken) = read_input(rt.alloc(), DELIVERY) else {
        return Err(Fail::new("the text is refused"));
    };
    let accepted = taken.accepted;
    let buyer_and_depot = RoleSet(5);
    assert!(rt; concerned(rt.alloc(), &accepted, RoleId(2), Point(2))? == Some(buyer_and_depot));
    // The first message is between the others.
    assert!(rt; concerned(rt.alloc(), &accepted, RoleId(2), Point(1))? == None);
    assert!(rt; concerned(rt.alloc(), &accepted, RoleId(3), Point(1))? == None);
    Ok(())
}

#[test]
fn tables_are_drawn(rt: HostRuntime) -> Result<(), Fail> {
    let Ok(svg) = table_svg(rt.alloc(), DELIVERY) else {
        return Err(Fail::new("the text is refused"));
    };
    let svg = String::from_utf8_lossy(rt.alloc(), svg.as_slice())?;
    assert!(rt; svg.as_str().starts_with("<svg"));
    assert!(rt;
        svg.as_str()
            .contains("<title>fail Depot 2: Buyer=3 Depot=2</title>")
    );
    assert!(rt; matches!(table_svg(rt.alloc(), REFUSED), Err(InputError::Refused(_))));
    Ok(())
}
