//! The law of paths, for crates above.
ghost use Rattle.std.specs.Prelude.{◌≡◌, ℕ, List};
ghost use Rattle.sx_tree.specs.Find.{Denotes, found_in};
ghost use Rattle.sx_tree.specs.Tree.{Nodes};
ghost use Rattle.sx_tree.specs.declared.node.Found.{Found};

/// The law of paths: what is found of a path is what the map of paths says of it. It is the node that has the path,
/// exactly where one has it; else the directory in which it would stand; else the number of parts of the shortest
/// proper prefix that is no directory. It does nothing.
pub fn paths_are_a_map()
    ensures denotes { (t : Nodes) (path : List (List ℕ)) → Denotes t path (found_in t path) }
    ensures only { (t : Nodes) (path : List (List ℕ)) (f : Found) → Denotes t path f → f ≡ found_in t path }
{}
