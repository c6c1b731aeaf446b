//! Files of stations, and where they are wrong. Called by `rt test`.
use network_file::{Key, value_of};
use radio_base::TextOut;
use station_file::{Member, StationFile, check_text, read_station, refusal_text};
use std::alloc::Global;
use std::process::Abort;

const TWO_RADIOS: &str = "name = \"Wursthatch at N0AAA\"\n\
    deny = [\"N0BAD\"]\n\
    [[node]]\n\
    call = \"N0AAA-1\"\n\
    alias = \"AVHF\"\n\
    ports = [\"2M\"]\n\
    links = false\n\
    via = [\"N0BBB N0REP\"]\n\
    qualities = [\"N0BBB 220\"]\n\
    locks = [\"N0DDD DNODE N0BBB 200\"]\n\
    [[port]]\n\
    name = \"2m\"\n\
    [mail]\n\
    call = \"N0AAA-8\"\n\
    alias = \"AMAIL\"\n\
    file = \"mail.db\"\n\
    [[beacon]]\n\
    port = \"2m\"\n\
    from = \"N0AAA-1\"\n\
    to = \"ID\"\n\
    text = \"node AVHF\"\n\
    every = 600\n";

/// What `check` tells of it.
const TOLD: &str = "station Wursthatch at N0AAA\n\
    port 1 2m\n\
    member AVHF:N0AAA-1 users yes digipeat yes ports 2m\n\
    post AMAIL:N0AAA-8 every 600 s file mail.db\n\
    beacon N0AAA-1>ID every 600 s port 2m\n";

fn expect_file(rt: &impl Abort, alloc: Global) {
    let file = read_station(alloc, TWO_RADIOS.as_bytes())
        .ok()
        .expect(rt, "a good file");
    assert!(rt; file.status() == 60 && file.idle() == 3_600 && file.denied().len() == 1);
    assert!(rt; file.members().len() == 1 && file.beacons().len() == 1);
    expect_member(rt, &file.members()[0]);
    expect_told(rt, alloc, &file);
}

fn expect_member(rt: &impl Abort, member: &Member) {
    assert!(rt;
        member.ports.as_slice() == [1].as_slice() && member.paclen == 256 && member.first == 60_000
    );
    assert!(rt; member.vias.len() == 1 && member.qualities.len() == 1 && member.locks.len() == 1);
    assert!(rt;
        value_of(member.settings.as_slice(), 1, Key::Links) == 0
            && value_of(member.settings.as_slice(), 1, Key::Interval) == 3_600_000
    );
}

fn expect_told(rt: &impl Abort, alloc: Global, file: &StationFile) {
    let text: TextOut = check_text(alloc, file).ok().expect(rt, "memory");
    assert!(rt; text.bytes() == TOLD.as_bytes());
}

#[test]
fn a_file_is_read_and_told(rt: HostRuntime) {
    expect_file(&rt, rt.alloc());
}

/// Files, and what is told of each.
const REFUSED: [(&str, &str); 8] = [
    (
        "name = \"x\"\n\n[[node]]\ncall = \"N0AAA-1\"\nports = []\nalias = \"AVHFNOD\"\n",
        "station.toml: line 6: node.alias: 7 bytes, at most 6\n",
    ),
    (
        "name = \"x\"\n[[node]]\ncall = \"N0AAA\"\nalias = \"A\"\n[[node]]\ncall = \"N0AAA\"\nalias = \"B\"\n",
        "station.toml: line 6: node.call: stands twice\n",
    ),
    (
        "# nothing yet\nname = \"x\"\n[[node]]\nalias = \"A\"\n",
        "station.toml: line 3: node.call: must be there\n",
    ),
    (
        "name = \"x\"\ndeny = [\n  \"N0BAD\",\n  \"n0bad\",\n]\n[[node]]\ncall = \"N0AAA\"\nalias = \"A\"\n",
        "station.toml: line 2: deny: item 2: no call\n",
    ),
    (
        "name = \"x\"\n[[node]]\ncall = \"N0AAA\"\nalias = \"A\"\nprompt = 1\n",
        "station.toml: line 5: node.prompt: no such key\n",
    ),
    (
        "name = \"x\"\n[[node]]\ncall = \"N0AAA\"\nalias = \"A\"\nmodulo = 16\n",
        "station.toml: line 5: node.modulo: 16, not 8 or 128\n",
    ),
    (
        "name = \"x\"\n[[node]]\ncall = \"N0AAA\"\nalias = \"A\"\nports = [\"2m\"]\n",
        "station.toml: line 5: node.ports: item 1: no such port\n",
    ),
    (
        "name = \"x\"\n[[node]]\ncall = \"N0AAA\"\nalias = \"A\"\n\
        qualities = [\"N0QA 1\", \"N0QB 1\", \"N0QC 1\", \"N0QD 1\", \"N0QE 1\", \"N0QF 1\", \"N0QG 1\", \"N0QH 1\", \
        \"N0QI 1\", \"N0QJ 1\", \"N0QK 1\", \"N0QL 1\", \"N0QM 1\", \"N0QN 1\", \"N0QO 1\", \"N0QP 1\"]\n\
        [[node]]\ncall = \"N0BBB\"\nalias = \"B\"\n",
        "station.toml: line 5: node.qualities: 16, at most 15\n",
    ),
];

fn expect_refused(rt: &impl Abort, alloc: Global, text: &str, told: &str) {
    match read_station(alloc, text.as_bytes()) {
        Ok(_) => assert!(rt; false, "not refused: {told}"),
        Err(refusal) => {
            let found = refusal_text(alloc, "station.toml", &refusal)
                .ok()
                .expect(rt, "memory");
            assert!(rt; found.as_str() == told, "{told}");
        }
    }
}

#[test]
fn a_wrong_file_is_refused_with_its_line(rt: HostRuntime) {
    for (text, told) in REFUSED {
        expect_refused(&rt, rt.alloc(), text, told);
    }
}
