// Which nodes of a sheet can move at all.
#![tactic(auto)]

ghost use Rattle.std.specs.Prelude.{◌≡◌};
ghost use Rattle.sheet_types.specs.SheetLimits.{max_nodes};
ghost use Rattle.node_opening.specs.Ranks.{LowerNames};
ghost use Rattle.sheet_types.specs.KindBytes.{kind_byte};
ghost use Rattle.sheet_types.specs.HeldSheet.{node_held};
ghost use Rattle.sheet_types.specs.NodeTable.{movables_of};
ghost use Rattle.node_moves.specs.NodeMoves.{movable_of};
ghost use Rattle.movable_nodes.specs.Movability.{marked};

use sheet_types::{Kind, TABLE_END};

// Whether a node of this kind, with these fields, can move, where the table has the same of the nodes it is made of.
pub fn movable_of_kind(table: &[u8; TABLE_END], kind: Kind, first: u16, second: u16) -> bool
    requires { LowerNames max_nodes (node_held (kind_byte kind) first second) }
    ensures { result ≡ movable_of (marked (movables_of table.now)) (node_held (kind_byte kind) first second) }
{
    match kind {
        Kind::Stop => false,
        Kind::Tell | Kind::Ask => true,
        Kind::Both | Kind::Either => {
            sheet_types::can_move(table, usize::from(first))
                || sheet_types::can_move(table, usize::from(second))
        }
    }
}

// The same of a node with its kind given as a number.
#[tactic(auto, using(sheet_types::specs::KindNumberLaws::least_kind_held))]
pub fn movable_by(table: &[u8; TABLE_END], kind: u16, first: u16, second: u16) -> bool
    requires { LowerNames max_nodes (node_held kind first second) }
    ensures { result ≡ movable_of (marked (movables_of table.now)) (node_held kind first second) }
{
    movable_of_kind(table, Kind::of(kind), first, second)
}
