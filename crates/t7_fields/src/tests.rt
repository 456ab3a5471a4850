//! Messages of the sample table, against bytes that a reader of the manuals expects.

ghost use Rattle.std.specs.Prelude.{◌≡◌, ◌≤◌, length};
ghost use Rattle.t7_layout.specs.declared.roles.Role.TheVariants as role;

use crate::{Fields, Scalar, View, write};
use std::test::Fail;
use t7_layout::{FieldName, Role, Table};
use t7_sample::SAMPLE;

// Writes the answer to logon 1, with a heartbeat interval of 30 seconds.
fn write_logon_response(table: &Table, out: &mut [u8]) -> usize
    requires { 1024 ≤ length out.old }
{
    let _templates = table.templates();
    let fields = [
        (FieldName::MsgSeqNum, Scalar::Word(1)),
        (FieldName::HeartBtInt, Scalar::Word(30_000)),
    ];
    write(table, Role::LogonResponse, &fields, out)
}

// What it says.
fn numbers(message: &Fields<'_>) -> (Option<u64>, Option<u64>)
    requires { message.now.role ≡ role.LogonResponse }
{
    (
        message.unsigned(FieldName::MsgSeqNum),
        message.unsigned(FieldName::HeartBtInt),
    )
}

#[test]
fn a_logon_response_has_its_bytes_and_is_read_back(rt: HostRuntime) -> Result<(), Fail> {
    let table = Table::read(rt.alloc(), SAMPLE.as_bytes())?;
    let template = table.role(Role::LogonResponse);
    let mut out = [7; 1024];
    assert_eq!(rt; write_logon_response(&table, &mut out), 16);
    let bytes = out.get(..16).ok_or("too short")?;
    let want = [0x10, 0, 0, 0, 0xc9, 0, 0, 0, 1, 0, 0, 0, 0x30, 0x75, 0, 0];
    assert_eq!(rt; bytes, want.as_slice());
    assert_eq!(rt; out[16], 7);
    for count in [15, 17, 1024] {
        let other = out.get(..count).ok_or("too short")?;
        assert!(rt; View::of(template, other).is_err());
    }
    let view = View::of(template, bytes).ok().ok_or("refused")?;
    let message = Fields::over(&table, Role::LogonResponse, view);
    assert_eq!(rt; numbers(&message), (Some(1), Some(30_000)));
    Ok(())
}
