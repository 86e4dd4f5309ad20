//! The laws of scenes as a contract.
ghost use Rattle.sp_effect_scene.specs.Laws.{SceneLaws};

/// The scene of a whole analysis is one, and each command of its program is formed and has points-to
/// closed under it (`SceneLaws` of `specs.Laws`). The call does nothing.
pub fn scenes_are_lawful()
    ensures laws { SceneLaws }
{}
