// Scripts that are run, and scripts that are not.
use crate::script::run_script;

#[test]
fn calls_have_room_and_places_each(rt: HostRuntime) -> anyhow::Result<()> {
    let heap = rt.alloc();
    let report = run_script(
        heap,
        b"\n# no call\n start \r\napply 01 05 01 01 61\napply 00",
    )?;
    let told = "a fresh hub: own 1, document count, policy ranges, clock 0
room for 3072 bytes, lists of 192 places
line 3: start, 7 bytes: 00 00 01 00 01 01 00
line 4: applied
  added: 5
  updated:
  changed:
  removed:
line 5: applied
  added:
  updated:
  changed:
  removed:
in the end: 1 record
            client       clock  state                  time
                 5           1  a                         0
in the end: vector:; update, 1 byte: 00
";
    assert_eq!(rt; format!(in heap; "{report}")?.as_str(), told);
    Ok(())
}

#[test]
fn other_scripts_make_no_call(rt: HostRuntime) -> anyhow::Result<()> {
    let heap = rt.alloc();
    let table: [(&[u8], &str); 7] = [
        (
            b"set 1\ngreet",
            "line 2: no call has this name; help lists them; no call is made",
        ),
        (
            b"set 1\n\nhandle 0",
            "line 3: column 1: half a byte; no call is made",
        ),
        (
            b"start\nlist 1 one",
            "line 2: a decimal number is wanted, of 64 bits or, as a tag, of 8; no call is made",
        ),
        (
            b"step1\nclock 7",
            "line 2: what sets up a run stands before its first call; no call is made",
        ),
        (
            b"clean\nrecords",
            "line 2: write, records, document and help are no calls of a run; no call is made",
        ),
        (
            b"places 1048577",
            "line 1: at most 1048576 are given; no call is made",
        ),
        (
            b"own 9007199254740992\nset 1",
            "the run is refused with 4 (wire: a client id is not below 2^53)",
        ),
    ];
    for (script, reason) in table {
        match run_script(heap, script) {
            Ok(report) => assert_eq!(rt; format!(in heap; "{report}")?.as_str(), reason),
            Err(fault) => assert_eq!(rt; format!(in heap; "{fault}")?.as_str(), reason),
        }
    }
    Ok(())
}
