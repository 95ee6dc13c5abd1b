//! The file tree, as a map from paths to nodes.

ghost use Rattle.std.specs.Prelude.{◌≡◌, IsTrue, ℕ, List};
ghost use Rattle.init_machine.specs.FileTree.{Place, first_tree, node_at, paths_ascend, tree_after};
ghost use Rattle.init_machine.specs.declared.task.TreeCall.{TreeCall};

/// The tree's places ascend by their paths, from the first tree on and whatever calls are done; and two such trees are one where
/// the same stands at each path. So a tree tells what stands where, and nothing of what stood there before.
pub fn tree_is_a_map()
    ensures first { IsTrue (paths_ascend first_tree) }
    ensures after { (tree : List Place) (call : TreeCall) → IsTrue (paths_ascend tree) → IsTrue (paths_ascend (tree_after tree call)) }
    ensures told { (tree other : List Place) → IsTrue (paths_ascend tree) → IsTrue (paths_ascend other)
        → ((path : List (List ℕ)) → node_at tree path ≡ node_at other path) → tree ≡ other }
{}
