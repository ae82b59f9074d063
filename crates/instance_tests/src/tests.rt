mod loads;
mod looks;
mod sets;

use self::loads::{load, rows};
use self::looks::look_at_band;
use self::sets::{session_text, tested_set};
use std::test::Fail;
use vh_builtin::BuiltIn;
use vh_instance::laws;
use vh_plugin::PluginSet;

/// Nodes and editors of a session, and how many holders the editors have.
const ROWS: [(u32, u32, usize); 6] = [
    (1, 0, 0),
    (1, 1, 1),
    (2, 0, 0),
    (2, 8, 16),
    (64, 1, 64),
    (64, 8, 512),
];

#[test]
fn bands_are_made_and_ended(rt: HostRuntime) -> Result<(), Fail> {
    let alloc = rt.alloc();
    for (nodes, editors, held) in ROWS {
        let mut set = tested_set(alloc)?;
        let text = session_text(alloc, nodes, editors)?;
        let looked = look_at_band(alloc, &mut set, text.as_bytes());
        assert_eq!(rt; set.made(), set.ended());
        let seen = looked?;
        let objects = 2 * u64::from(nodes);
        assert_eq!(rt; (seen.made, seen.ended), (objects, 0));
        assert_eq!(rt; (set.ended(), set.work()), (objects, 1));
        assert_eq!(rt; seen.component, [1, 1, 1, 1, 1]);
        assert_eq!(rt; seen.controllers.len(), nodes as usize);
        assert!(rt; seen.controllers.iter().all(|at| *at == [1, 0, 1, 1]));
        assert_eq!(rt; seen.holders.len(), held);
        assert!(rt; seen.holders.iter().all(|at| *at == [0, 0, 2, 0]));
        let mut sides = seen.sides.iter().enumerate();
        assert!(rt; sides.all(|(node, side)| *side == (node % 3 == 0)));
        assert_eq!(rt; seen.first.first(), Some(&4194304));
    }
    laws::raised_by_sum();
    laws::undone_is_even();
    Ok(())
}

#[test]
fn presets_are_loaded_under_param_lines_or_refused_by_node(rt: HostRuntime) -> Result<(), Fail> {
    let alloc = rt.alloc();
    for row in rows() {
        let mut set = BuiltIn::new(alloc)?;
        let answer = load(alloc, &mut set, &row);
        assert_eq!(rt; set.made(), set.ended());
        assert_eq!(rt; answer?, row.answer);
        assert_eq!(rt; set.work(), 0);
    }
    laws::without_preset();
    laws::without_presets();
    laws::line_over_preset();
    Ok(())
}
