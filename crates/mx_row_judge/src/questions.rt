//! Which questions rows are asked.

/// The questions that rows are asked: those of the judge at least. Where rows answer each of them as a book does, they speak
/// for that book, whether or not their tables stand for it; and a table is told damaged by one of them.
pub trait Questions {
    ghost use Rattle.std.specs.Prelude.{List};
    ghost use Rattle.sqlite.specs.Tree.{Trees};
    ghost use Rattle.mx_book.specs.commands.Act.{Entry};
    ghost use Rattle.mx_layout.specs.TableName.{TableName};
    ghost use Rattle.mx_row_judge.specs.Answering.{AnswerAs};
    ghost use Rattle.mx_row_judge.specs.Damage.{JudgeDamage};

    ghost answers_as: { Trees → List Entry → Type 0 };

    ghost judged_as: { (trees : Trees) (book : List Entry)
        → answers_as trees book → AnswerAs trees book };

    ghost damage: { TableName → Trees → Type 0 };

    ghost told_by_judge: { (name : TableName) (trees : Trees)
        → JudgeDamage name trees → damage name trees };
}

/// Those of the judge.
#[derive(Clone, Copy, Drop)]
pub struct JudgeQuestions;

impl Questions for JudgeQuestions {
    ghost use Rattle.mx_row_judge.specs.Answering.{AnswerAs};
    ghost use Rattle.mx_row_judge.specs.Damage.{JudgeDamage};

    ghost answers_as = { AnswerAs };

    ghost judged_as = { λ trees book answers. answers };

    ghost damage = { JudgeDamage };

    ghost told_by_judge = { λ name trees told. told };
}

/// Those of the lists, which ask what the judge asks and more.
#[derive(Clone, Copy, Drop)]
pub struct ListQuestions;

impl Questions for ListQuestions {
    ghost use Rattle.mx_row_judge.specs.Answering.{AnswerListsAs};
    ghost use Rattle.mx_row_judge.specs.Damage.{ListDamage, by_judge};

    ghost answers_as = { AnswerListsAs };

    ghost judged_as = { λ trees book answers. answers.judge };

    ghost damage = { ListDamage };

    ghost told_by_judge = { λ name trees told. by_judge told };
}
