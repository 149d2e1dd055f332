// A graph's window and number of edges through references.
ghost use Rattle.c_answers.specs.Graphs.{Tells};

use graph_edges::Graph;
use refusals::Refusal;

// Where the call is refused, `window` and `edges` keep what they held.
pub fn tell_graph(answer: Result<Graph, Refusal>, window: &mut usize, edges: &mut usize) -> usize
    ensures { Tells answer result window.old window.new edges.old edges.new }
{
    match answer {
        Ok(g) => {
            *window = g.win;
            *edges = g.edges;
            0
        }
        Err(refusal) => refusal.number(),
    }
}
