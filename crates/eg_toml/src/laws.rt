// Laws of what documents weigh.
ghost use Rattle.eg_toml.specs.WeightLaws.{CommentsWeighNothing, TextsWeighNothing};

/// Does nothing when it runs. Its clauses are laws: what stands in comments and in texts of one line weighs
/// nothing (docs/FORMATS.md, "What a document weighs").
pub fn comments_and_texts_weigh_nothing()
    ensures comments { CommentsWeighNothing }
    ensures texts { TextsWeighNothing }
{}
