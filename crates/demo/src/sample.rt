// A question of four tables.
ghost use Rattle.std.specs.Prelude.{◌≡◌, MatchResult};
ghost use Rattle.catalogue.specs.Asked.{asked};
ghost use Rattle.catalogue.specs.Changes.{empty};
ghost use Rattle.sheet.specs.Sample.{sample as sample_question, tables, ties};

use catalogue::{Catalogue, ChangeRefusal};

// Films, the reels that hold them, the cartridges of the reels and their shelves.
fn add_tables(question: &mut Catalogue) -> Result<(), ChangeRefusal>
    requires { asked question.old ≡ empty }
    ensures { MatchResult result (λ _. asked question.new ≡ tables) (λ _. ⊥) }
{
    question.table(100)?;
    question.table(10)?;
    question.table(8)?;
    question.table(3)?;
    Ok(())
}

// Each is tied to the next.
fn add_ties(question: &mut Catalogue) -> Result<(), ChangeRefusal>
    requires { asked question.old ≡ tables }
    ensures { MatchResult result (λ _. asked question.new ≡ ties) (λ _. ⊥) }
{
    question.tie(0, 1, 1, 100, 60)?;
    question.tie(1, 2, 1, 8, 5)?;
    question.tie(2, 3, 1, 3, 1)?;
    Ok(())
}

// A film is fetched to test it, and a cartridge looked up.
fn add_tests(question: &mut Catalogue) -> Result<(), ChangeRefusal>
    requires { asked question.old ≡ ties }
    ensures { MatchResult result (λ _. asked question.new ≡ sample_question) (λ _. ⊥) }
{
    question.test(0, 1, 2, 350, 1)?;
    question.test(2, 1, 2, 20, 0)?;
    Ok(())
}

// The question that the sheet corrects.
pub fn sample() -> Result<Catalogue, ChangeRefusal>
    ensures { MatchResult result (λ c. asked c ≡ sample_question) (λ _. ⊥) }
{
    let mut question = Catalogue::new();
    add_tables(&mut question)?;
    add_ties(&mut question)?;
    add_tests(&mut question)?;
    Ok(question)
}
