use crate::runs::{INPUT, LIVE, Open, live, store};
use std::alloc::{AllocError, Global};
use std::test::Fail;
use vh_files::MemSay;
use vh_host::{Place, Status};

/// A live rendering of three frames: the lines of the editors, the journal where all came before the block, that where all
/// came after it, and what is reported of the editors.
#[derive(Clone, Copy)]
struct Row {
    editors: &'static str,
    before: &'static str,
    after: &'static str,
    report: &'static str,
}

/// What is reported before the editors: the frames, the pieces, and a gain's values.
const HEAD: &str =
    "vsthost report 1\nframes 3\npieces 1\nparam a 0 8388608 0.5000\nparam a 1 0 Off\n";

const ROWS: [Row; 5] = [
    Row {
        editors: "",
        before: "",
        after: "",
        report: "",
    },
    Row {
        editors: "editor 0\nbegin a 0\ndrop a\nend a 0\n",
        before: "0 0 0 begin a 0\n",
        after: "3 0 0 begin a 0\n",
        report: "editor 0 accepted 1 refused 1\n",
    },
    Row {
        editors: "editor 0\nwait 0\nbegin a 0\n",
        before: "0 0 0 begin a 0\n",
        after: "3 0 0 begin a 0\n",
        report: "editor 0 accepted 1 refused 0\n",
    },
    Row {
        editors: "editor 0\nperform a 0 5\n",
        before: "",
        after: "",
        report: "editor 0 accepted 0 refused 1\n",
    },
    Row {
        editors: "editor 0\neditor 1\nbegin a 0\n",
        before: "0 1 0 begin a 0\n",
        after: "3 1 0 begin a 0\n",
        report: "editor 0 accepted 0 refused 0\neditor 1 accepted 1 refused 0\n",
    },
];

/// A journal with these lines.
fn journal(alloc: Global, lines: &str) -> Result<String, AllocError> {
    format!(in alloc; "vsthost journal 1\n{lines}close\n")
}

#[test]
fn each_row_gives_its_files(rt: HostRuntime) -> Result<(), Fail> {
    let alloc = rt.alloc();
    for row in ROWS {
        let Row {
            editors,
            before,
            after,
            report,
        } = row;
        let mut files = store(alloc, "3", editors)?;
        let mut say = MemSay::new(alloc)?;
        let status = live(&rt, alloc, LIVE, &mut files, &mut say, &Open)?;
        assert!(rt; status == Status::Ok, "{editors}");
        assert!(rt; files.get("out.wav") == Some(INPUT), "{editors}");
        let kept = files.get("journal");
        assert!(rt;
            kept == Some(journal(alloc, before)?.as_bytes())
                || kept == Some(journal(alloc, after)?.as_bytes()),
            "{editors}"
        );
        let said = format!(in alloc; "{HEAD}{report}close\n")?;
        assert!(rt; say.said() == said.as_bytes(), "{editors}");
    }
    Ok(())
}

#[test]
fn the_sixty_fifth_hold_is_refused(rt: HostRuntime) -> Result<(), Fail> {
    let alloc = rt.alloc();
    let mut editors = String::from_str(alloc, "editor 0\n")?;
    for _ in 0..65 {
        editors.push_str("hold a\n")?;
    }
    let mut files = store(alloc, "3", editors.as_str())?;
    let mut say = MemSay::new(alloc)?;
    let status = live(&rt, alloc, LIVE, &mut files, &mut say, &Open)?;
    assert!(rt; status == Status::Ok);
    assert!(rt;
        say.said()
            .ends_with(b"editor 0 accepted 0 refused 1\nclose\n")
    );
    Ok(())
}

#[test]
fn words_and_files_are_refused(rt: HostRuntime) -> Result<(), Fail> {
    let alloc = rt.alloc();
    let rows = [
        ("live s in.wav out.wav", Status::Usage, "refused usage\n"),
        ("render s in.wav out.wav", Status::Usage, "refused usage\n"),
        (
            "live s in.wav out.wav journal block=0",
            Status::Usage,
            "refused usage\n",
        ),
        (
            "live none in.wav out.wav journal",
            Status::ReadFault(Place::Session),
            "failed read session\n",
        ),
        (
            "live s none out.wav journal",
            Status::ReadFault(Place::Input),
            "failed read input\n",
        ),
    ];
    for (line, status, said) in rows {
        let mut files = store(alloc, "3", "editor 0\nbegin a 0\n")?;
        let mut say = MemSay::new(alloc)?;
        let ended = live(&rt, alloc, line, &mut files, &mut say, &Open)?;
        assert!(rt; ended == status && say.said() == said.as_bytes(), "{line}");
        assert!(rt;
            files.get("out.wav").is_none() && files.get("journal").is_none(),
            "{line}"
        );
    }
    Ok(())
}
