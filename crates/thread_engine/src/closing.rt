// The tables of a run's groups are closed with the tokens that came back.
ghost use Rattle.std.specs.Prelude.{◌≡◌, ◌*◌, ◌≤◌, ◌++◌, [], length, vec_capacity, IfOk};
ghost use Rattle.thread_engine.specs.TableTokens.{AllEnded, AreTokensOf, AreTokenRooms};

use atomic_board::{GroupTable, SeatToken};
use fs_model::Memory;
use std::alloc::Global;
use std::collections::VecDeque;

// Takes the first tokens, so many.
fn first_of(tokens: &mut VecDeque<SeatToken>, count: u32, mut own: Vec<SeatToken>) -> Vec<SeatToken>
    requires there { count ≤ length tokens.old.items }
    requires room { (own.items ≡ []) × (count ≤ vec_capacity own) }
    ensures count { length result.items ≡ count }
    ensures split { tokens.old.items ≡ result.items ++ tokens.new.items }
{
    for _ in 0..count {
        let Some(token) = tokens.pop_front() else {
            unreachable!()
        };
        own.push_reserved(token);
    }
    own
}

/// Closes each table with its members' tokens. `rooms` has room for the tokens of one table each. It takes no memory.
pub fn close_tables(
    tables: Vec<GroupTable>,
    members: u32,
    tokens: Vec<SeatToken>,
    mut rooms: Vec<Vec<SeatToken>>,
)
    requires tokens { AreTokensOf members tables.items tokens.items }
    requires rooms { AreTokenRooms members (length tables.items) rooms.items }
    ensures { AllEnded tables.items tokens.items }
{
    let mut tokens = VecDeque::from_vec(tokens);
    for table in tables {
        let Some(room) = rooms.pop() else {
            unreachable!()
        };
        let own = first_of(&mut tokens, members, room);
        drop(table.close(own));
    }
}

/// Room for the tokens of each table.
pub fn token_rooms(
    alloc: Global,
    members: u32,
    groups: usize,
) -> Result<Vec<Vec<SeatToken>>, Memory>
    ensures { IfOk result (λ rooms. AreTokenRooms members groups rooms.items) }
{
    let mut rooms = Vec::with_capacity(alloc, groups)?;
    for _ in 0..groups {
        rooms.push_reserved(Vec::with_capacity(alloc, members as usize)?);
    }
    Ok(rooms)
}
