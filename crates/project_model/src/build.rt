ghost use Rattle.std.specs.Prelude.{◌≡◌, None, IfOk, IfErr};
ghost use Rattle.project_model.specs.Broken.{breach_of};
ghost use Rattle.project_model.specs.Checked.{Refuses};
ghost use Rattle.project_model.specs.Effects.{AreSchemas};
ghost use Rattle.project_model.specs.Form.{IsFormed};
ghost use Rattle.project_model.specs.Plain.{plain_of};
ghost use Rattle.project_model.specs.Sound.{IsSound};
ghost use Rattle.project_model.specs.Uses.{AreUses};

use crate::graph::nesting_of;
use crate::join::project_of;
use crate::passing::error_of;
use crate::search::first_breach;
use crate::times::times_of;
use crate::{CheckError, EffectSchema, PlainProject, Project};
use rational_time::common_base;
use std::alloc::Global;

impl Project {
    /// The project of these parts, where they keep the rules from 16 on (see [`crate::Rule`]) and its effects are those of a set with
    /// these schemas. The streams of an effect have the ranges of its kind's parameters as their bounds.
    pub fn of_plain(
        alloc: Global,
        plain: PlainProject,
        schemas: &[EffectSchema],
    ) -> Result<Project, CheckError>
        requires formed { IsFormed plain }
        requires schemas { AreSchemas schemas.now }
        ensures project { IfOk result (λ p. plain_of p ≡ plain) }
        ensures passed { IfOk result (λ _. breach_of schemas.now plain ≡ None) }
        ensures sound { IfOk result IsSound }
        ensures fits { IfOk result (AreUses schemas.now) }
        ensures refused { IfErr result (λ e. Refuses e (breach_of schemas.now plain)) }
    {
        let Ok(times) = times_of(alloc, &plain) else {
            return Err(CheckError::Memory);
        };
        let Ok(nesting) = nesting_of(alloc, &plain) else {
            return Err(CheckError::Memory);
        };
        let base = common_base(&times);
        if let Some(breach) = first_breach(schemas, &plain, base.is_some(), &nesting) {
            return Err(error_of(breach));
        }
        let Ok(project) = project_of(alloc, base.unwrap(), plain, schemas) else {
            return Err(CheckError::Memory);
        };
        Ok(project)
    }
}
