//! Laws on the node. Each function is empty: what it ensures holds of every log and of all fates,
//! and its callers may cite it.

ghost use Rattle.std.specs.Prelude.{◌≡◌, ◌∷◌, [], List, None, Option, Some};
ghost use Rattle.jc_types.specs.declared.actions.End.{End};
ghost use Rattle.jc_types.specs.declared.objects.Entry.{Entry};
ghost use Rattle.jc_types.specs.declared.objects.KeyNames.{KeyNames as Key};
ghost use Rattle.jc_types.specs.declared.objects.Pod.{Pod};
ghost use Rattle.jc_log.specs.Acts as does;
ghost use Rattle.jc_log.specs.Deeds.{Deed};
ghost use Rattle.jc_log.specs.Log.{pod_in};
ghost use Rattle.jc_history.specs.Nodes.{NodeAct as Act, act_on, fate, fate_told, node_step, pod_end};
ghost use Rattle.jc_node.specs.Fated.{DecidesEnds, ends_at_key};
ghost use Rattle.jc_node.specs.NodeSteps.{act_of, act_kind};

/// The pod of the node's next step is there, the act is what befalls it, and what is told of the
/// act and the pod's fate give the act again: the change of each step can be asked for.
pub fn steps_can_be_made()
    ensures there { (log : List Entry) (fates : Key → Option (List End)) (pod : Pod) (act : Act)
        → node_step log fates ≡ Some (pod, act) → pod_in pod.uid log ≡ Some pod }
    ensures befalls { (log : List Entry) (fates : Key → Option (List End)) (pod : Pod) (act : Act)
        → node_step log fates ≡ Some (pod, act) → act_on fates pod ≡ Some act }
    ensures again { (log : List Entry) (fates : Key → Option (List End)) (pod : Pod) (act : Act)
        → node_step log fates ≡ Some (pod, act)
        → act_of (act_kind act) (pod_end fates pod) ≡ Some act }
{}

/// Fates stay those of a history: at first there are none, a deed that decides how the pods of a
/// key are to end sets that, and every other deed leaves them.
pub fn fates_follow_the_deeds()
    ensures none { ends_at_key [] ≡ fate [] }
    ensures decided { (older : List Deed) (deed : Deed) (key : Key) (ends : List End)
        (old new : List (Key × List End)) → deed.act ≡ does.Fate key ends
        → ends_at_key old ≡ fate older
        → DecidesEnds key ends old new
        → ends_at_key new ≡ fate (deed ∷ older) }
    ensures left { (older : List Deed) (deed : Deed) (rows : List (Key × List End))
        → ((key : Key) → fate_told key deed ≡ None) → ends_at_key rows ≡ fate older
        → ends_at_key rows ≡ fate (deed ∷ older) }
{}
