use std::alloc::Global;
use std::test::Fail;
use vh_cut::{Piece, pieces};
use vh_ids::Tuid;
use vh_num::Refusal;
use vh_params::{
    CAN_AUTOMATE, ClassInfo, Classes, IS_READ_ONLY, Label, ParamInfo, ParamTable, UnitInfo,
};
use vh_session::{End, SessionFault, SessionKind, laws, read};

/// A continuous parameter.
fn param(id: u32, flags: u32) -> ParamInfo {
    ParamInfo {
        id,
        title: Label::new(b""),
        units: Label::new(b""),
        steps: 0,
        first: 0,
        unit: 0,
        flags,
    }
}

/// One class, with an aux bus and seven parameters: the second can't be automated, the third is only read.
fn classes(alloc: Global) -> Result<Classes, Fail> {
    let params = [
        param(0, CAN_AUTOMATE),
        param(1, 0),
        param(2, IS_READ_ONLY),
        param(3, CAN_AUTOMATE),
        param(4, CAN_AUTOMATE),
        param(5, CAN_AUTOMATE),
        param(6, CAN_AUTOMATE),
    ];
    let mut list = Vec::new(alloc);
    list.push(ClassInfo {
        name: Label::new(b"gate"),
        component: Tuid([0; 16]),
        controller: Tuid([0; 16]),
        aux: true,
        params: ParamTable::new(alloc, &params, &[UnitInfo::root(Label::new(b"Root"))])?,
    })?;
    Ok(Classes::new(alloc, list)?)
}

/// What a text is refused for, behind the lines that each session has and three nodes.
fn kind_of(alloc: Global, lines: &str) -> Result<Option<SessionFault>, Fail> {
    let classes = classes(alloc)?;
    let head =
        "vsthost session 1\nlength 8\nchannels 1\nbits 16\npattern 64\nnode g gate\nnode e gate\nnode m gate\n";
    let text = format!(in alloc; "{head}{lines}")?;
    Ok(match read(alloc, text.as_bytes(), &classes) {
        Err(Refusal::Fault(fault)) => Some(fault),
        _ => None,
    })
}

/// What the built-in classes can't show; checks/ has the rows that they can.
#[test]
fn faults_of_lines(rt: HostRuntime) -> Result<(), Fail> {
    let alloc = rt.alloc();
    let rows = [
        ("param g 7 0", SessionKind::UnknownParam),
        ("lane g 1 0 0 0", SessionKind::BadLane),
        ("lane m 2 0 0 0", SessionKind::ReadOnlyParam),
    ];
    for (line, kind) in rows {
        let fault = kind_of(alloc, line)?;
        assert_eq!(rt; fault, Some(SessionFault { line: 9, kind }));
    }
    Ok(())
}

#[test]
fn a_session_is_read_and_printed(rt: HostRuntime) -> Result<(), Fail> {
    let alloc = rt.alloc();
    let classes = classes(alloc)?;
    let text =
        "  vsthost  session 1\r\n# a verse\nlength   008\nchannels 2\nbits 24\n\npattern 37 64\nnode g gate\nnode e gate\nparam e 0 5\nparam g 1 7\nparam g 0 3\npreset e b.vstpreset\npreset g a\nwire in g\nwire g e aux\nlane g 0 4 10 20\npoint 11 30\neditor 0\nhold g\ntell e 1 02 3\neditor 1\nwait 4";
    let session = read(alloc, text.as_bytes(), &classes)?;
    assert_eq!(rt;
        (session.length, session.channels, session.bits),
        (8, 2, 24)
    );
    assert_eq!(rt;
        session.firsts.as_slice(),
        &[(0, 0, 3), (0, 1, 7), (1, 0, 5)][..]
    );
    let printed = session.print(alloc)?;
    assert_eq!(rt;
        printed.as_slice(),
        b"vsthost session 1\nlength 8\nchannels 2\nbits 24\npattern 37 64\nnode g gate\nnode e gate\npreset g a\npreset e b.vstpreset\nparam g 0 3\nparam g 1 7\nparam e 0 5\nwire in g\nwire g e aux\nlane g 0 4 10 20\npoint 11 30\neditor 0\nhold g\ntell e 1 2 3\neditor 1\nwait 4\n".as_slice()
    );
    let again = read(alloc, printed.as_slice(), &classes)?;
    assert_eq!(rt; again.print(alloc)?.as_slice(), printed.as_slice());
    Ok(())
}

#[test]
fn lanes_at_their_limit(rt: HostRuntime) -> Result<(), Fail> {
    let alloc = rt.alloc();
    let classes = classes(alloc)?;
    let mut text = Vec::from_slice(
        alloc,
        b"vsthost session 1\nlength 8\nchannels 1\nbits 16\npattern 64\n",
    )?;
    for node in 0..64 {
        let line = format!(in alloc; "node n{node} gate\n")?;
        text.extend_from_slice(line.as_bytes())?;
    }
    for node in 0..64 {
        for id in [0, 3, 4, 5] {
            let line = format!(in alloc; "lane n{node} {id} 0 0 0\n")?;
            text.extend_from_slice(line.as_bytes())?;
        }
    }
    let session = read(alloc, text.as_slice(), &classes)?;
    assert_eq!(rt; session.lanes.len(), 256);
    let rows = [
        ("lane n0 0 0 0 0", SessionKind::BadLane),
        ("lane n0 6 0 0 0", SessionKind::TooMany),
        ("node m gate", SessionKind::TooMany),
    ];
    for (line, kind) in rows {
        let mut longer = Vec::from_slice(alloc, text.as_slice())?;
        longer.extend_from_slice(line.as_bytes())?;
        let fault = match read(alloc, longer.as_slice(), &classes) {
            Err(Refusal::Fault(fault)) => Some(fault),
            _ => None,
        };
        assert_eq!(rt; fault, Some(SessionFault { line: 326, kind }));
    }
    Ok(())
}

#[test]
fn wires_and_sizes(rt: HostRuntime) -> Result<(), Fail> {
    let alloc = rt.alloc();
    let classes = classes(alloc)?;
    let text =
        b"vsthost session 1\n# preset e g\n\nlength 8\nchannels 1\nbits 16\npattern 3 2\nnode g gate\nnode e gate\n preset e f\nwire in g\nwire g e\nwire g e aux\nwire in e aux\nwire e out";
    let session = read(alloc, text, &classes)?;
    assert_eq!(rt;
        session.node_wires(alloc)?.as_slice(),
        &[(0, 1), (0, 1)][..]
    );
    let aux = session.sources(alloc, End::Node(1), true)?;
    assert_eq!(rt; aux.as_slice(), &[End::Node(0), End::In][..]);
    let out = session.sources(alloc, End::Out, false)?;
    assert_eq!(rt; out.as_slice(), &[End::Node(1)][..]);
    let mut blocks = pieces(session.length, session.block_sizes(), &[]);
    let first = Piece {
        start: 0,
        length: 3,
    };
    assert_eq!(rt; blocks.next(), Some(first));
    laws::printed_is_read();
    laws::texts_have_one_meaning();
    Ok(())
}
