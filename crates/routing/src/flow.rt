// A flow: the arcs that are chosen, and potentials that certify that they are chosen as cheaply as can be. `explore` looks
// for a way for one unit more, `rounds` takes it, and `extract` takes paths out. Of each step that changes a flow a clause
// says that the task is kept: through a `&mut` any field may change. States are by the number of the arc, since the arcs are
// lent by the graph.
ghost use Rattle.graph.specs.Graphs.{node_count};
ghost use Rattle.std.specs.Prelude.{◌≡◌, length};

use crate::state::State;
use crate::task::Task;
use network::MOST_LINKS;

#[derive(Drop)]
pub(crate) struct Flow<'a> {
    pub(crate) task: Task<'a>,
    pub(crate) states: [State; MOST_LINKS],
    pub(crate) pots: &'a mut [u32],
    ghost states_long: { length states ≡ 128 },
    ghost pots_long: { length pots.now ≡ node_count task.graph.now },
}
