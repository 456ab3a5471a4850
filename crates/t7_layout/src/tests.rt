//! The sample table, and tables with a fault.

use super::*;
use std::alloc::{AllocError, Global};
use t7_sample::SAMPLE;

// The sample table with one text in place of another.
fn changed(alloc: Global, from: &str, to: &str) -> Result<Vec<u8>, AllocError> {
    Ok(SAMPLE.replace(alloc, from, to)?.into_bytes())
}

#[test]
fn the_sample_table_is_read(rt: HostRuntime) {
    match Table::read(rt.alloc(), SAMPLE.as_bytes()) {
        Ok(table) => {
            assert_eq!(rt; table.templates().len(), 32);
            assert_eq!(rt; table.role(Role::OrderAdd).id(), 3);
            assert_eq!(rt; table.role(Role::OrderAdd).len(), 48);
            assert_eq!(rt; table.role(Role::EobiHeartbeat).name(), "Heartbeat");
            let price = table.at(Role::NewOrderSingleRequest, FieldName::Price);
            assert_eq!(rt; price.offset(), 32);
            assert_eq!(rt; price.null(), Some(-9223372036854775808));
            assert!(rt; table.template(Family::Eti, 3).is_none());
            let found = table.template(Family::Eobi, 3).and_then(|t| t.role());
            assert_eq!(rt; found, Some(Role::OrderAdd));
            let mut text = Vec::new(rt.alloc());
            assert!(rt; table.text(&mut text).is_ok());
            assert!(rt; text.starts_with(b"ETI 101 LogonRequest 24\nETI 102 LogoutRequest 16\n"));
            assert!(rt; text.ends_with(b"\nEOBI 13 SnapshotOrder 40\n"));
        }
        Err(_) => assert!(rt; false),
    }
}

#[test]
fn a_fault_is_that_of_the_least_row(rt: HostRuntime) {
    for (from, to, row, why) in [
        ("Pad4,20,4,X,", "Pad4,20,4,X", 8, TableWhy::Columns),
        ("ETI,104", "ETB,104", 17, TableWhy::Family),
        ("ETI,103", "ETI,0103", 14, TableWhy::Cell),
        ("quest,Pad2,6,2,X", "quest,Pad2,6,2,F", 4, TableWhy::Kind),
        ("ID,16,4,U", "ID,16,3,U", 7, TableWhy::Width),
        (
            "MsgSeqNum,8,4,U,4294967295",
            "MsgSeqNum,8,4,U,7",
            5,
            TableWhy::Null,
        ),
        (
            "SecurityID,16,8,I,-9223372036854775808",
            "SecurityID,16,8,I,-0",
            23,
            TableWhy::Null,
        ),
        ("ETI,102", "ETI,101", 9, TableWhy::DuplicateId),
        ("LogoutRequest", "LogonRequest", 9, TableWhy::DuplicateName),
        ("ID,16,4,U", "ID,14,4,U", 7, TableWhy::Overlap),
        ("ID,16,4,U", "ID,17,4,U", 7, TableWhy::Hole),
        ("Pad4,20,4,X", "Pad4,20,3,X", 8, TableWhy::Length),
        ("TemplateID,4,2,U", "TemplateId,4,2,U", 8, TableWhy::Header),
        ("PartyIDSessionID", "PartyID", 8, TableWhy::RoleField),
        ("SnapshotOrder", "Snapshot", 229, TableWhy::RoleMissing),
        (SAMPLE, "", 1, TableWhy::Columns),
    ] {
        match changed(rt.alloc(), from, to) {
            Ok(bytes) => match Table::read(rt.alloc(), &bytes) {
                Err(TableRefusal::Fault(fault)) => assert_eq!(rt; fault, TableFault { row, why }),
                _ => assert!(rt; false),
            },
            Err(_) => assert!(rt; false),
        }
    }
}
